// What rules of paths are that are asked together.
ghost use Rattle.std.specs.Prelude.{◌≡◌, ℕ, ◌+◌, ◌^◌, List, true, false, Some, map, length, slice_get, IfOk, OnOk};
ghost use Rattle.pdl_rules.specs.Places as spec;
ghost use Rattle.pdl_paths.specs.Actions.{place_view};
ghost use Rattle.pdl_paths.specs.Masks.{path_of};

use pdl_kit::NoMemory;
use pdl_paths::{Path, Place};
use std::alloc::Global;

/// Rules that are asked on one walk along each path.
///
/// Each keeps, over the paths walked, the lowest place that breaks it.
pub trait PathRules {
    /// How each stands on a path, after the places passed.
    type Courses: Drop;
    /// For each the lowest place that breaks it on the paths walked.
    type Lowest: Drop;
    /// For each the line of the lowest place that breaks it on some path, none where no place does.
    type Lines: Drop;

    /// They fit a pipe with these guards and these places.
    ghost suits: { Self → List spec.Guard → List spec.Place → Type 0 };

    /// These are the lowest places on the paths with fewer bits.
    ghost found: { Self → List spec.Guard → List spec.Place → ℕ → Self.Lowest → Type 0 };

    /// So they stand on the path with these bits, after as many places.
    ghost stand: { Self → List spec.Guard → List spec.Place → ℕ → ℕ → Self.Courses → Type 0 };

    /// These are the lines at which a pipe with these guards and these places breaks them.
    ghost break_at: { Self → List spec.Guard → List spec.Place → Self.Lines → Type 0 };

    /// Before the first path of a pipe with as many places.
    fn unbroken(&self, count: usize) -> Self::Lowest
        ensures { (gs : List spec.Guard) (xs : List spec.Place) → count ≡ length xs →
            found self.now gs xs 0 result };

    /// Before the first place of a path.
    fn start(
        &self,
        alloc: Global,
        path: Path,
        lowest: Self::Lowest,
    ) -> Result<Self::Courses, NoMemory>
        ensures { IfOk result (λ courses. (gs : List spec.Guard) (xs : List spec.Place) →
            suits self.now gs xs
            → found self.now gs xs path.bits lowest → stand self.now gs xs path.bits 0 courses) };

    /// Passes a place on the path, the k-th of the text. Where memory runs out the courses are of no path any more.
    fn pass(&self, courses: &mut Self::Courses, k: usize, place: &Place<'_>) -> Result<(), NoMemory>
        ensures { OnOk result ((gs : List spec.Guard) (xs : List spec.Place) (bits : ℕ) →
            suits self.now gs xs
            → slice_get xs k ≡ Some (place_view place.now)
            → spec.on_path (path_of gs bits) (place_view place.now) ≡ true
            → stand self.now gs xs bits k courses.old → stand self.now gs xs bits (k + 1)
            courses.new) };

    /// After the last place of a path.
    fn end(&self, courses: Self::Courses) -> Self::Lowest
        ensures { (gs : List spec.Guard) (xs : List spec.Place) (bits : ℕ)
            → stand self.now gs xs bits (length xs) courses → found self.now gs xs (bits + 1)
            result };

    /// After the last path of a pipe with these places.
    fn lines(&self, places: &[Place<'_>], lowest: Self::Lowest) -> Self::Lines
        ensures { (gs : List spec.Guard) →
            found self.now gs (map place_view places.now) (2 ^ length gs) lowest
            → break_at self.now gs (map place_view places.now) result };

    /// A place that isn't on the path changes nothing.
    ghost skip: { (rules : Self) (gs : List spec.Guard) (xs : List spec.Place) (bits k : ℕ)
        (x : spec.Place) (courses : Self.Courses)
        → slice_get xs k ≡ Some x → spec.on_path (path_of gs bits) x ≡ false
        → stand rules gs xs bits k courses → stand rules gs xs bits (k + 1) courses };
}
