// Rules and further rules.
use crate::path_rules::PathRules;
use pdl_kit::NoMemory;
use pdl_paths::{Path, Place};
use std::alloc::Global;

/// Two of a kind: rules that are asked together, or what is known of each of them.
#[derive(Drop)]
pub struct Both<A, B> {
    pub first: A,
    pub second: B,
}

impl<A: PathRules, B: PathRules> PathRules for Both<A, B> {
    type Courses = Both<A::Courses, B::Courses>;

    type Lowest = Both<A::Lowest, B::Lowest>;

    type Lines = Both<A::Lines, B::Lines>;

    ghost suits = { λ rules gs xs. (A.suits rules.first gs xs) × (B.suits rules.second gs xs) };

    ghost found = { λ rules gs xs paths lowest.
        (A.found rules.first gs xs paths lowest.first)
        × (B.found rules.second gs xs paths lowest.second) };

    ghost stand = { λ rules gs xs bits k courses.
        (A.stand rules.first gs xs bits k courses.first)
        × (B.stand rules.second gs xs bits k courses.second) };

    ghost break_at = { λ rules gs xs lines.
        (A.break_at rules.first gs xs lines.first) × (B.break_at rules.second gs xs lines.second) };

    fn unbroken(&self, count: usize) -> Both<A::Lowest, B::Lowest> {
        Both {
            first: self.first.unbroken(count),
            second: self.second.unbroken(count),
        }
    }

    fn start(
        &self,
        alloc: Global,
        path: Path,
        lowest: Both<A::Lowest, B::Lowest>,
    ) -> Result<Both<A::Courses, B::Courses>, NoMemory> {
        let Both { first, second } = lowest;
        let first = self.first.start(alloc, path, first)?;
        let second = self.second.start(alloc, path, second)?;
        Ok(Both { first, second })
    }

    fn pass(
        &self,
        courses: &mut Both<A::Courses, B::Courses>,
        k: usize,
        place: &Place<'_>,
    ) -> Result<(), NoMemory> {
        self.first.pass(&mut courses.first, k, place)?;
        self.second.pass(&mut courses.second, k, place)?;
        Ok(())
    }

    fn end(&self, courses: Both<A::Courses, B::Courses>) -> Both<A::Lowest, B::Lowest> {
        let Both { first, second } = courses;
        Both {
            first: self.first.end(first),
            second: self.second.end(second),
        }
    }

    fn lines(
        &self,
        places: &[Place<'_>],
        lowest: Both<A::Lowest, B::Lowest>,
    ) -> Both<A::Lines, B::Lines> {
        let Both { first, second } = lowest;
        Both {
            first: self.first.lines(places, first),
            second: self.second.lines(places, second),
        }
    }

    ghost skip = { λ rules gs xs bits k x courses got off stands. (
      A.skip rules.first gs xs bits k x courses.first got off stands.0,
      B.skip rules.second gs xs bits k x courses.second got off stands.1,
    ) };
}
