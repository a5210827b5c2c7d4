// The call of the next thread: rule S1.
ghost use Rattle.std.specs.Prelude.{◌≡◌, filter, ⊤};
ghost use Rattle.std.specs.List.{list_any};
ghost use Rattle.pdl_rules.specs.Places.{on_path};
ghost use Rattle.pdl_rules.specs.Calls as calls;
ghost use Rattle.pdl_spec.specs.Called.{skipped};

use pdl_kit::NoMemory;
use pdl_paths::{Action, Path, Place, is_call};
use pdl_rules_on_paths::PathRule;
use std::alloc::Global;

/// One call on each path: a second one breaks the rule, speculative or not, and the end with none before it.
#[derive(Clone, Copy)]
pub struct OneCall;

impl PathRule for OneCall {
    // Whether a call was passed.
    type State = bool;

    ghost suits = { λ rule gs xs. ⊤ };

    ghost breaks_on = { λ rule path before x.
        calls.is_wrong_call (filter (on_path path) before) x };

    ghost stands = { λ rule path before state.
        state ≡ list_any calls.is_call (filter (on_path path) before) };

    fn start(&self, _alloc: Global, _path: Path) -> Result<bool, NoMemory> {
        Ok(false)
    }

    fn breaks(&self, state: &bool, _k: usize, place: &Place<'_>) -> bool {
        match place.action {
            Action::Call(_) | Action::SpecCall(_, _) => *state,
            Action::End => !*state,
            Action::Parameter(_) | Action::Memory(_) | Action::Separator => false,
            Action::CombRead(_, _) | Action::Bind(_, _) | Action::DelayedRead(_, _) => false,
            Action::Write(_, _) | Action::Reserve(_, _) | Action::Block(_) => false,
            Action::Release(_) | Action::If(_, _, _) | Action::Verify(_, _) => false,
            Action::Update(_, _) => false,
            Action::SpecCheck | Action::SpecBarrier | Action::StartClause(_) => false,
        }
    }

    fn step(&self, state: &mut bool, _k: usize, place: &Place<'_>) -> Result<(), NoMemory> {
        if is_call(place) {
            *state = true;
            return Ok(());
        }
        Ok(())
    }

    ghost skips = { λ rule path before x state off stands. skipped path before x state off stands };
}
