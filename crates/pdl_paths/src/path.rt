// Paths.
ghost use Rattle.std.specs.Prelude.{◌≡◌, ◌≤◌, ◌^◌, List, Bool, length};
ghost use Rattle.std.specs.Iterator.{YieldsFirst, item_count};
ghost use Rattle.std.specs.List.{list_any};
ghost use Rattle.pdl_rules.specs.Places as rules;
ghost use Rattle.pdl_paths.specs.Masks.{path_of};
ghost use Rattle.pdl_paths.specs.Paths.{paths_below, paths_left};

use crate::guards::Guards;

/// A choice of the truth of each guard: bit i is the truth of the i-th guard in text order.
#[derive(Clone, Copy)]
pub struct Path {
    pub bits: u16,
}

/// Each choice of the truth of some guards, once.
#[derive(Drop)]
pub struct PathIter {
    left: u16,
}

impl PathIter {
    /// All paths of at most ten guards.
    pub fn new(guards: &Guards) -> PathIter
        requires { length guards.now ≤ 10 }
        ensures all { paths_left result ≡ paths_below (2 ^ length guards.now) }
        // They are the paths of the rules.
        ensures choices { (test : List rules.Guard → Bool) →
            list_any (λ path. test (path_of guards.now path.bits)) (paths_left result)
            ≡ list_any test (rules.choices guards.now) }
    {
        PathIter {
            left: guards.path_count() as u16,
        }
    }
}

impl Iterator for PathIter {
    type Item = Path;

    ghost next_gives = { YieldsFirst paths_left };

    ghost remaining = { item_count paths_left };

    fn next(&mut self) -> Option<Path> {
        if self.left == 0 {
            return None;
        }
        self.left -= 1;
        Some(Path { bits: self.left })
    }
}
