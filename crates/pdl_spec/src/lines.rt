// The rules on calls and guesses that are asked on paths, and the lines at which they are broken.
ghost use Rattle.std.specs.Prelude.{◌≡◌, ◌≤◌, map, length};
ghost use Rattle.pdl_syntax_tree.specs.View.{pipe_view};
ghost use Rattle.pdl_rules.specs.Places.{places as spec_places, guards as spec_guards};
ghost use Rattle.pdl_rules.specs.Speculation.{verify_stage};
ghost use Rattle.pdl_paths.specs.Actions.{place_view};
ghost use Rattle.pdl_paths.specs.Masks.{AreMasked};
ghost use Rattle.pdl_locks.specs.Facts.{AreFacts};
ghost use Rattle.pdl_spec.specs.WalkLines.{AreLines, Lines, named_lines};

use crate::checked::CheckedFirst;
use crate::one_call::OneCall;
use crate::sure::ReleasedSure;
use crate::updated_once::UpdatedOnce;
use crate::verified::VerifiedOnce;
use pdl_locks::LockFacts;
use pdl_paths::{Guards, Place};
use pdl_rules_stages::all_true;
use pdl_rules_walk::{Alone, Both, PathRules};
use pdl_syntax_tree::Pipe;

/// The rules on calls and guesses that are asked on paths: S1 and S2, S4 and S5, and S6.
pub type SpecRules<'a, 'p> = Both<
    Both<
        Both<Alone<OneCall>, Alone<VerifiedOnce<'a, 'p>>>,
        Both<Alone<ReleasedSure<'a, 'p>>, Alone<CheckedFirst<'a>>>,
    >,
    Alone<UpdatedOnce<'a>>,
>;

/// The lines at which a pipe breaks each of them, none where it keeps it.
#[derive(Clone, Copy)]
pub struct SpecLines {
    /// S1.
    pub one_call: Option<u32>,
    /// S2.
    pub verified_once: Option<u32>,
    /// S4.
    pub released_sure: Option<u32>,
    /// S5.
    pub checked_first: Option<u32>,
    /// S6.
    pub updated_once: Option<u32>,
}

impl SpecLines {
    /// The lines of the rules, as one walk gives them.
    pub fn of(lines: <SpecRules<'_, '_> as PathRules>::Lines) -> SpecLines
        ensures { result ≡ named_lines lines }
    {
        let Both { first, second } = lines;
        SpecLines {
            one_call: first.first.first,
            verified_once: first.first.second,
            released_sure: first.second.first,
            checked_first: first.second.second,
            updated_once: second,
        }
    }
}

/// The rules of a pipe with these guards and places, of which these facts are known; `verified` is the stage of the first `verify` in the text.
pub fn spec_path_rules<'a, 'p>(
    pipe: &'a Pipe,
    guards: &'a Guards,
    places: &'a [Place<'p>],
    facts: &'a LockFacts,
    verified: Option<usize>,
) -> SpecRules<'a, 'p>
    requires few { length guards.now ≤ 10 }
    requires own { guards.now ≡ spec_guards (map place_view places.now) }
    requires masks { AreMasked guards.now places.now }
    requires of { map place_view places.now ≡ spec_places (pipe_view pipe.now) }
    requires facts { AreFacts (pipe_view pipe.now) places.now facts.now }
    requires verified { verified ≡ verify_stage (pipe_view pipe.now) }
    ensures suits { ⟦<SpecRules<'a, 'p> as PathRules>⟧.suits result guards.now
        (map place_view places.now) }
    ensures lines { (lines : Lines) →
        ⟦<SpecRules<'a, 'p> as PathRules>⟧.break_at result guards.now
        (map place_view places.now) lines
        → AreLines (pipe_view pipe.now) (named_lines lines) }
{
    let stages = facts.stages.as_slice();
    let verified_once = VerifiedOnce {
        pipe,
        guards,
        all: all_true(guards),
        places,
        stages,
    };
    let released_sure = ReleasedSure {
        places,
        first: facts.locations.as_slice(),
        stages,
        verified,
    };
    let first = Both {
        first: Alone(OneCall),
        second: Alone(verified_once),
    };
    let second = Both {
        first: Alone(released_sure),
        second: Alone(CheckedFirst { stages, verified }),
    };
    Both {
        first: Both { first, second },
        second: Alone(UpdatedOnce { stages, verified }),
    }
}
