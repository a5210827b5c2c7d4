// Uses that come before what they use.
ghost use Rattle.std.specs.Prelude.{◌≡◌, ◌<◌, ◌||◌, not, ◌&&◌, Some, length, map, take, slice_get, ◌≤◌, ◌^◌};
ghost use Rattle.pdl_syntax_tree.specs.View.{pipe_view};
ghost use Rattle.pdl_rules.specs.Places.{Place as spec_place, places as spec_places, guards as spec_guards, on_path, on_some_path};
ghost use Rattle.pdl_rules.specs.Names as spec;
ghost use Rattle.pdl_rules.specs.Names.{Use};
ghost use Rattle.pdl_paths.specs.Actions.{place_view};
ghost use Rattle.pdl_paths.specs.Masks.{IsMasked, path_of};
ghost use Rattle.pdl_rules_names.specs.First.{first_where};
ghost use Rattle.pdl_rules_names.specs.Ready.{given_on};
ghost use Rattle.pdl_rules_names.specs.Early.{IsReady, is_early};

use crate::branches::is_inside;
use crate::index::Index;
use crate::uses::UseTest;
use pdl_kit::Name;
use pdl_paths::{Action, Path, Place};
use pdl_syntax_tree::Pipe;

/// What is asked of the uses at the k-th place: that each is defined before, on each path through the place.
#[derive(Clone, Copy)]
pub struct Early<'a> {
    pub pipe: &'a Pipe,
    pub index: &'a Index,
    pub places: &'a [Place<'a>],
    /// Of each path, by its bits, the number of the last separator before.
    pub last: &'a [usize],
    pub k: usize,
}

impl UseTest for Early<'_> {
    ghost fits = { IsReady };

    ghost test = { is_early };

    fn of_variable(&self, name: &Name) -> bool {
        match self.index.variables.number(name) {
            None => true,
            Some(d) => {
                if d < self.pipe.params.len() {
                    return false;
                }
                self.is_ungiven(d)
            }
        }
    }

    fn of_memory(&self, _name: &Name) -> bool {
        false
    }

    fn of_guess(&self, name: &Name) -> bool {
        match self.index.guesses.number(name) {
            None => true,
            Some(d) => self.is_ungiven(d),
        }
    }
}

impl Early<'_> {
    // Whether what the d-th place defines first isn't given before the k-th, in the text or on some path.
    fn is_ungiven(&self, d: usize) -> bool
        requires ready { IsReady self.now }
        requires there { d < length self.now.places.now }
        ensures { (u : Use) (x : spec_place) →
            first_where (spec.defines_use u) (map place_view self.now.places.now) ≡ Some d →
            slice_get (map place_view self.now.places.now) self.now.k ≡ Some x →
            result ≡ (spec.is_undefined (take self.now.k (map place_view self.now.places.now)) u
            || on_some_path (λ earlier. not (spec.is_given earlier u))
            (pipe_view self.now.pipe.now)
            (take self.now.k (map place_view self.now.places.now)) x) }
    {
        if d >= self.k {
            return true;
        }
        let place = &self.places[self.k];
        let definition = &self.places[d];
        if !is_delayed(definition) && is_inside(place, definition) {
            return false;
        }
        for b in 0..self.last.len() {
            if self.is_missing_on(place, definition, d, b) {
                return true;
            }
        }
        false
    }

    // Whether a path, by its bits, leads through the place but doesn't give what the d-th place defines.
    fn is_missing_on(&self, place: &Place<'_>, definition: &Place<'_>, d: usize, b: usize) -> bool
        requires ready { IsReady self.now }
        requires path { b < 2 ^ length (spec_guards (spec_places (pipe_view self.now.pipe.now))) }
        requires masked { IsMasked (spec_guards (spec_places (pipe_view self.now.pipe.now)))
            place.now }
        requires defined { IsMasked (spec_guards (spec_places (pipe_view self.now.pipe.now)))
            definition.now }
        ensures { let path = path_of (spec_guards (spec_places (pipe_view self.now.pipe.now))) b in
            result ≡ (on_path path (place_view place.now)
            && not (given_on path (take self.now.k (map place_view self.now.places.now)) d
            (place_view definition.now))) }
    {
        let path = Path { bits: b as u16 };
        if !place.is_on(path) {
            return false;
        }
        !self.is_given_on(definition, d, b, path)
    }

    // Whether the path with these bits gives what the d-th place defines.
    fn is_given_on(&self, definition: &Place<'_>, d: usize, b: usize, path: Path) -> bool
        requires ready { IsReady self.now }
        requires path { b < 2 ^ length (spec_guards (spec_places (pipe_view self.now.pipe.now))) }
        requires bits { path.bits ≡ b }
        requires defined { IsMasked (spec_guards (spec_places (pipe_view self.now.pipe.now)))
            definition.now }
        ensures { result ≡ given_on (path_of
            (spec_guards (spec_places (pipe_view self.now.pipe.now))) b)
            (take self.now.k (map place_view self.now.places.now)) d (place_view definition.now) }
    {
        if !definition.is_on(path) {
            return false;
        }
        if !is_delayed(definition) {
            return true;
        }
        d < self.last[b]
    }
}

// Whether a place reads a memory that answers in a later stage.
fn is_delayed(place: &Place<'_>) -> bool
    ensures { result ≡ spec.is_delayed (place_view place.now) }
{
    match place.action {
        Action::DelayedRead(_, _) => true,
        Action::Parameter(_) | Action::Memory(_) | Action::Separator => false,
        Action::CombRead(_, _) | Action::Bind(_, _) | Action::SpecCall(_, _) => false,
        Action::Write(_, _) | Action::Reserve(_, _) | Action::Block(_) => false,
        Action::Release(_) | Action::If(_, _, _) | Action::Call(_) => false,
        Action::Verify(_, _) | Action::Update(_, _) | Action::SpecCheck => false,
        Action::SpecBarrier => false,
        Action::End | Action::StartClause(_) => false,
    }
}
