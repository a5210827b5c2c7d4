// Masks: the paths that lead through a place.
ghost use Rattle.std.specs.Prelude.{◌≡◌};
ghost use Rattle.pdl_paths.specs.Masks as spec;

use crate::path::Path;

/// The guards that are true on each path through a place, and those that are false, as bits by their numbers. Where one is both, no path leads there.
#[derive(Clone, Copy)]
pub struct Mask {
    pub on: u16,
    pub off: u16,
}

/// The mask of what stands in no branch.
pub const EVERYWHERE: Mask = Mask { on: 0, off: 0 };

impl Mask {
    /// The mask one branch further in, where the guard of this number is so; guards past the sixteenth are left out.
    pub fn with(self, number: usize, truth: bool) -> Mask
        ensures { result ≡ spec.with_number number truth self }
    {
        if number >= 16 {
            return self;
        }
        let bit = 1u16 << number;
        if truth {
            Mask {
                on: self.on | bit,
                off: self.off,
            }
        } else {
            Mask {
                on: self.on,
                off: self.off | bit,
            }
        }
    }

    /// Whether the path goes by each of its guards.
    pub fn allows_path(self, path: Path) -> bool
        ensures { result ≡ spec.allows_path self path.bits }
    {
        path.bits & self.on == self.on && path.bits & self.off == 0
    }
}
