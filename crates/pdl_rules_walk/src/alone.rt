// One rule by itself.
ghost use Rattle.std.specs.Prelude.{◌≡◌, ℕ, ◌+◌, ◌≤◌, List, Some, false, length, slice_get};
ghost use Rattle.pdl_rules_walk.specs.Course.{IsLowestSoFar, IsOnPath, by_bits, path_line};
ghost use Rattle.pdl_rules_walk.specs.Aside.{aside};

use crate::path_rules::PathRules;
use pdl_kit::NoMemory;
use pdl_paths::{Path, Place};
use pdl_rules_on_paths::{PathRule, line_at};
use std::alloc::Global;

/// A rule that is asked alone.
#[derive(Drop)]
pub struct Alone<R>(pub R);

/// How a rule stands on a path, over all paths so far.
#[derive(Drop)]
pub struct Course<S> {
    /// The lowest place that breaks it.
    pub lowest: usize,
    /// What it knows of the places passed, up to that one.
    pub state: S,
}

impl<R: PathRule> PathRules for Alone<R> {
    type Courses = Course<R::State>;

    type Lowest = usize;

    type Lines = Option<u32>;

    ghost suits = { λ rules gs xs. R.suits rules.0 gs xs };

    ghost found = { λ rules gs xs paths lowest.
        IsLowestSoFar (by_bits (R.breaks_on rules.0) gs xs) paths (length xs) lowest };

    ghost stand = { λ rules gs xs bits k courses.
        IsOnPath (R.breaks_on rules.0) (λ path before. R.stands rules.0 path before courses.state)
        gs xs bits k courses.lowest };

    ghost break_at = { λ rules gs xs line. line ≡ path_line (R.breaks_on rules.0) gs xs };

    fn unbroken(&self, count: usize) -> usize {
        count
    }

    fn start(
        &self,
        alloc: Global,
        path: Path,
        lowest: usize,
    ) -> Result<Course<R::State>, NoMemory> {
        let state = self.0.start(alloc, path)?;
        Ok(Course { lowest, state })
    }

    // Past the lowest place so far nothing is asked.
    fn pass(
        &self,
        courses: &mut Course<R::State>,
        k: usize,
        place: &Place<'_>,
    ) -> Result<(), NoMemory> {
        if k >= courses.lowest {
            return Ok(());
        }
        if self.0.breaks(&courses.state, k, place) {
            courses.lowest = k;
            return Ok(());
        }
        self.0.step(&mut courses.state, k, place)?;
        Ok(())
    }

    fn end(&self, courses: Course<R::State>) -> usize {
        courses.lowest
    }

    fn lines(&self, places: &[Place<'_>], lowest: usize) -> Option<u32> {
        line_at(places, lowest)
    }

    ghost skip = { λ rules gs xs bits k x courses got off stands.
        aside (R.breaks_on rules.0) (λ path before. R.stands rules.0 path before courses.state) gs
        xs bits k courses.lowest x
        (λ path before aside_it h. R.skips rules.0 path before x courses.state aside_it h) got off
        stands };
}
