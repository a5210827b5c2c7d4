// What a rule of the text is.
ghost use Rattle.std.specs.Prelude.{◌≡◌, ◌+◌, ◌<◌, [], List, Bool, length, take, map, IfOk, OnOk};
ghost use Rattle.pdl_rules.specs.Places as rules;
ghost use Rattle.pdl_paths.specs.declared.place.Place as places_of_pipe;
ghost use Rattle.pdl_paths.specs.Actions.{place_view};
ghost use Rattle.pdl_rules_on_paths.specs.Lowest.{breaks_at};

use pdl_kit::NoMemory;
use pdl_paths::Place;
use std::alloc::Global;

/// A rule that a place breaks by what stands before it in the text.
///
/// It goes along the text once, with what it knows of the places passed.
pub trait TextRule {
    /// What it knows of the places passed.
    type State: Drop;

    /// The rule fits a pipe with these places.
    ghost fits: { Self → List places_of_pipe.Place → Type 0 };

    /// Whether a place breaks the rule, after these places of the text.
    ghost breaks_on: { Self → List rules.Place → rules.Place → Bool };

    /// The state is that after these places of the text.
    ghost stands: { Self → List rules.Place → Self.State → Type 0 };

    /// The state before the first place.
    fn start(&self, alloc: Global, places: &[Place<'_>]) -> Result<Self::State, NoMemory>
        requires { fits self.now places.now }
        ensures { IfOk result (λ s. stands self.now [] s) };

    /// Whether the k-th place breaks the rule.
    fn breaks(&self, state: &Self::State, places: &[Place<'_>], k: usize) -> bool
        requires here { k < length places.now }
        requires fits { fits self.now places.now }
        requires stands { stands self.now (take k (map place_view places.now)) state.now }
        ensures { result ≡ breaks_at (breaks_on self.now) (map place_view places.now) k };

    /// Passes the k-th place. Where memory runs out the state is of no text any more.
    fn step(
        &self,
        alloc: Global,
        state: &mut Self::State,
        places: &[Place<'_>],
        k: usize,
    ) -> Result<(), NoMemory>
        requires here { k < length places.now }
        requires fits { fits self.now places.now }
        requires stands { stands self.now (take k (map place_view places.now)) state.old }
        ensures { OnOk result (stands self.now
            (take (k + 1) (map place_view places.now)) state.new) };
}
