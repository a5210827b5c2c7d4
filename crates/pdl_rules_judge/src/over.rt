// The limits that a place is over.
ghost use Rattle.std.specs.Prelude.{◌≡◌, ◌&&◌, ◌==◌, not, length};
ghost use Rattle.pdl_rules.specs.Limits as spec;
ghost use Rattle.pdl_rules.specs.Places as rules;
ghost use Rattle.pdl_paths.specs.Guards.{guard_view};
ghost use Rattle.pdl_paths.specs.Actions.{place_view};
ghost use Rattle.pdl_rules_judge.specs.Over.{adds_guard};

use crate::counts::{Counts, is_binding, is_memory, is_statement};
use crate::literals::{has_wrong_literal, in_args, in_expr};
use crate::sizes::{is_width, is_wrong_memory};
use pdl_paths::branch::guard_of;
use pdl_paths::{Action, Guard, Guards, Place, is_separator};

/// The limits that a place is over.
#[derive(Clone, Copy)]
pub struct Over {
    pub z2: bool,
    pub z3: bool,
    pub z4: bool,
    pub z5: bool,
    pub z6: bool,
    pub z7: bool,
}

/// What a place is over, after so many places and these guards.
pub fn over_at(counts: Counts, guards: &Guards, place: &Place<'_>) -> Over
    ensures z2 { result.z2 ≡ (spec.is_statement (place_view place.now)
        && (counts.statements == 1024)) }
    ensures z3 { result.z3 ≡ (spec.is_separator (place_view place.now)
        && (counts.separators == 63)) }
    ensures z4 { result.z4 ≡ (spec.is_memory (place_view place.now) && (counts.memories == 16)) }
    ensures z5 { result.z5 ≡ (spec.is_binding (place_view place.now) && (counts.bindings == 512)) }
    ensures z6 { result.z6 ≡ (adds_guard guards.now (place_view place.now)
        && (length guards.now == 10)) }
    ensures z7 { result.z7 ≡ spec.breaks_z7 (place_view place.now) }
{
    Over {
        z2: is_statement(place) && counts.statements == 1024,
        z3: is_separator(place) && counts.separators == 63,
        z4: is_memory(place) && counts.memories == 16,
        z5: is_binding(place) && counts.bindings == 512,
        z6: is_new_guard(guards, place) && guards.len() == 10,
        z7: has_wrong_size(place),
    }
}

// Whether the place is an `if` with none of these guards.
fn is_new_guard(guards: &Guards, place: &Place<'_>) -> bool
    ensures { result ≡ adds_guard guards.now (place_view place.now) }
{
    match place.action {
        Action::If(condition, _, _) => is_new(guards, guard_of(place.span, condition)),
        Action::Parameter(_) | Action::Memory(_) | Action::Separator => false,
        Action::CombRead(_, _) | Action::Bind(_, _) | Action::SpecCall(_, _) => false,
        Action::DelayedRead(_, _) | Action::Write(_, _) | Action::Reserve(_, _) => false,
        Action::Block(_) | Action::Release(_) | Action::Call(_) | Action::Verify(_, _) => false,
        Action::Update(_, _) => false,
        Action::SpecCheck | Action::SpecBarrier | Action::End | Action::StartClause(_) => false,
    }
}

// Whether a guard is none of these.
fn is_new(guards: &Guards, guard: Guard<'_>) -> bool
    ensures { result ≡ not (rules.is_among (guard_view guard.entry) guards.now) }
{
    guards.number(guard) >= guards.len()
}

// Whether the place holds a width, a depth or a lock that may not be.
fn has_wrong_size(place: &Place<'_>) -> bool
    ensures { result ≡ spec.breaks_z7 (place_view place.now) }
{
    match place.action {
        Action::Parameter(param) => !is_width(param.width.value),
        Action::Memory(mem) => is_wrong_memory(mem),
        Action::Bind(_, e) | Action::Write(_, e) | Action::If(e, _, _) => in_expr(e),
        Action::SpecCall(_, args) | Action::Call(args) | Action::Verify(_, args) => in_args(args),
        Action::Update(_, args) => in_args(args),
        Action::StartClause(start) => has_wrong_literal(start.args.as_slice()),
        Action::Separator | Action::CombRead(_, _) | Action::DelayedRead(_, _) => false,
        Action::Reserve(_, _) | Action::Block(_) | Action::Release(_) => false,
        Action::SpecCheck | Action::SpecBarrier | Action::End => false,
    }
}
