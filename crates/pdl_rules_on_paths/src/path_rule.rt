// What a rule of paths is.
ghost use Rattle.std.specs.Prelude.{◌≡◌, [], ◌∷◌, ◌++◌, List, Bool, true, false, length, IfOk, OnOk};
ghost use Rattle.pdl_rules.specs.Places as rules;
ghost use Rattle.pdl_paths.specs.Actions.{place_view};
ghost use Rattle.pdl_paths.specs.Masks.{path_of};

use pdl_kit::NoMemory;
use pdl_paths::{Path, Place};
use std::alloc::Global;

/// A rule that a place breaks on a path, by the places before it.
///
/// It goes along one path at a time, with what it knows of the places passed.
pub trait PathRule {
    /// What it knows of the places passed.
    type State: Drop;

    /// The rule fits a pipe with these guards and these places.
    ghost suits: { Self → List rules.Guard → List rules.Place → Type 0 };

    /// Whether a place that the path leads through breaks the rule on it, after these places of the text.
    ghost breaks_on: { Self → List rules.Guard → List rules.Place → rules.Place → Bool };

    /// The state is that of the path after these places of the text.
    ghost stands: { Self → List rules.Guard → List rules.Place → Self.State → Type 0 };

    /// The state before the first place of a path.
    fn start(&self, alloc: Global, path: Path) -> Result<Self::State, NoMemory>
        ensures { IfOk result (λ s. (gs : List rules.Guard) (all : List rules.Place) →
            suits self.now gs all → stands self.now (path_of gs path.bits) [] s) };

    /// Whether a place on the path, the k-th of the text, breaks the rule.
    fn breaks(&self, state: &Self::State, k: usize, place: &Place<'_>) -> bool
        ensures { (gs path : List rules.Guard) (before later : List rules.Place) →
            suits self.now gs (before ++ place_view place.now ∷ later) → k ≡ length before →
            rules.on_path path (place_view place.now) ≡ true →
            stands self.now path before state.now →
            result ≡ breaks_on self.now path before (place_view place.now) };

    /// Passes a place on the path, the k-th of the text. Where memory runs out the state is of no path any more.
    fn step(&self, state: &mut Self::State, k: usize, place: &Place<'_>) -> Result<(), NoMemory>
        ensures { OnOk result ((gs path : List rules.Guard) (before later : List rules.Place) →
            suits self.now gs (before ++ place_view place.now ∷ later) → k ≡ length before →
            rules.on_path path (place_view place.now) ≡ true →
            stands self.now path before state.old →
            stands self.now path (before ++ place_view place.now ∷ []) state.new) };

    /// A place that isn't on the path changes nothing.
    ghost skips: { (rule : Self) (path : List rules.Guard) (before : List rules.Place)
        (x : rules.Place) (state : Self.State) → rules.on_path path x ≡ false →
        stands rule path before state → stands rule path (before ++ x ∷ []) state };
}
