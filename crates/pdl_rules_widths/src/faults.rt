// The rules on widths that a place breaks.
ghost use Rattle.std.specs.Prelude.{◌≡◌, ◌||◌, ◌==◌, false, not, map};
ghost use Rattle.std.specs.List.{list_any};
ghost use Rattle.pdl_semantics.specs.Flatten as flatten;
ghost use Rattle.pdl_semantics.specs.Tree as tree;
ghost use Rattle.pdl_syntax_tree.specs.View.{expr_view, exprs_view, literal_view, location_view, mem_view, param_view};
ghost use Rattle.pdl_rules.specs.Parts.{some_part, of_constant};
ghost use Rattle.pdl_rules.specs.Widths as spec;
ghost use Rattle.pdl_paths.specs.Actions.{place_view};
ghost use Rattle.pdl_rules_widths.specs.Rules as straight;
ghost use Rattle.pdl_rules_widths.specs.Rules.{AreFaults};

use crate::arguments::{call_fits, has_too_large, start_fits};
use crate::measure::{measure_of, measured_args};
use crate::memories::{address_bits, mem_depth, mem_width};
use crate::variables::Variables;
use pdl_paths::{Action, Place};
use pdl_syntax_tree::{Expr, Literal, Location, Mem, Param};

/// The rules on widths that a place breaks.
#[derive(Clone, Copy)]
pub struct Faults {
    pub w1: bool,
    pub w2: bool,
    pub w3: bool,
    pub w4: bool,
    pub w5: bool,
    pub w6: bool,
}

const NONE: Faults = Faults {
    w1: false,
    w2: false,
    w3: false,
    w4: false,
    w5: false,
    w6: false,
};

/// What a place breaks, in a pipe with these variables, memories and parameters.
pub fn faults_at(variables: &Variables, mems: &[Mem], params: &[Param], place: &Place<'_>) -> Faults
    ensures { AreFaults variables.now (map mem_view mems.now) (map param_view params.now)
        (place_view place.now) result }
{
    match place.action {
        Action::CombRead(_, at) | Action::DelayedRead(_, at) => at_location(variables, mems, at),
        Action::Reserve(at, _) => at_location(variables, mems, at),
        Action::Block(at) | Action::Release(at) => at_location(variables, mems, at),
        Action::Bind(_, e) => in_value(variables, e),
        Action::Write(at, e) => in_write(variables, mems, at, e),
        Action::If(condition, _, _) => in_condition(variables, condition),
        Action::SpecCall(_, args) | Action::Call(args) => in_call(variables, params, args),
        Action::Verify(_, args) | Action::Update(_, args) => in_call(variables, params, args),
        Action::StartClause(start) => in_start(params, start.args.as_slice()),
        Action::Parameter(_) | Action::Memory(_) | Action::Separator => NONE,
        Action::SpecCheck | Action::SpecBarrier | Action::End => NONE,
    }
}

// A location alone.
fn at_location(variables: &Variables, mems: &[Mem], at: &Location) -> Faults
    ensures w1 { result.w1 ≡ false }
    ensures w2 { result.w2 ≡ false }
    ensures w3 { result.w3 ≡ false }
    ensures w4 { result.w4 ≡ straight.is_wrong_address variables.now (map mem_view mems.now)
        (location_view at.now) }
    ensures w5 { result.w5 ≡ false }
    ensures w6 { result.w6 ≡ false }
{
    let mut faults = NONE;
    faults.w4 = is_wrong_address(variables, mems, at);
    faults
}

fn is_wrong_address(variables: &Variables, mems: &[Mem], at: &Location) -> bool
    ensures { result ≡ straight.is_wrong_address variables.now (map mem_view mems.now)
        (location_view at.now) }
{
    variables.width(&at.address.name) != address_bits(mem_depth(mems, &at.mem.name))
}

// A bound value.
fn in_value(variables: &Variables, e: &Expr) -> Faults
    ensures w1 { result.w1 ≡ some_part (spec.is_unequal variables.now) (expr_view e.now) }
    ensures w2 { result.w2 ≡ (some_part (of_constant spec.is_too_large) (expr_view e.now)
        || some_part (spec.is_out_of_range variables.now) (expr_view e.now)) }
    ensures w3 { result.w3 ≡ some_part (spec.is_wide_choice variables.now) (expr_view e.now) }
    ensures w4 { result.w4 ≡ false }
    ensures w5 { result.w5 ≡ false }
    ensures w6 { result.w6 ≡ false }
{
    let measure = measure_of(variables, e);
    let mut faults = NONE;
    faults.w1 = measure.unequal;
    faults.w2 = measure.too_large || measure.out_of_range;
    faults.w3 = measure.wide_choice;
    faults
}

// A written value, with its location.
fn in_write(variables: &Variables, mems: &[Mem], at: &Location, e: &Expr) -> Faults
    ensures w1 { result.w1 ≡ some_part (spec.is_unequal variables.now) (expr_view e.now) }
    ensures w2 { result.w2 ≡ (some_part (of_constant spec.is_too_large) (expr_view e.now)
        || some_part (spec.is_out_of_range variables.now) (expr_view e.now)) }
    ensures w3 { result.w3 ≡ some_part (spec.is_wide_choice variables.now) (expr_view e.now) }
    ensures w4 { result.w4 ≡ straight.is_wrong_address variables.now (map mem_view mems.now)
        (location_view at.now) }
    ensures w5 { result.w5 ≡ false }
    ensures w6 { result.w6 ≡ not (flatten.width_of variables.now
        (expr_view e.now) == flatten.mem_width (map mem_view mems.now) at.now.mem.name) }
{
    let measure = measure_of(variables, e);
    let mut faults = NONE;
    faults.w1 = measure.unequal;
    faults.w2 = measure.too_large || measure.out_of_range;
    faults.w3 = measure.wide_choice;
    faults.w4 = is_wrong_address(variables, mems, at);
    faults.w6 = measure.width != mem_width(mems, &at.mem.name);
    faults
}

// The condition of an `if`.
fn in_condition(variables: &Variables, e: &Expr) -> Faults
    ensures w1 { result.w1 ≡ some_part (spec.is_unequal variables.now) (expr_view e.now) }
    ensures w2 { result.w2 ≡ (some_part (of_constant spec.is_too_large) (expr_view e.now)
        || some_part (spec.is_out_of_range variables.now) (expr_view e.now)) }
    ensures w3 { result.w3 ≡ (not (flatten.width_of variables.now (expr_view e.now) == 1)
        || some_part (spec.is_wide_choice variables.now) (expr_view e.now)) }
    ensures w4 { result.w4 ≡ false }
    ensures w5 { result.w5 ≡ false }
    ensures w6 { result.w6 ≡ false }
{
    let measure = measure_of(variables, e);
    let mut faults = NONE;
    faults.w1 = measure.unequal;
    faults.w2 = measure.too_large || measure.out_of_range;
    faults.w3 = measure.width != 1 || measure.wide_choice;
    faults
}

// The arguments of a call, a guess or a `verify`.
fn in_call(variables: &Variables, params: &[Param], args: &[Expr]) -> Faults
    ensures w1 { result.w1 ≡ list_any (some_part (spec.is_unequal variables.now))
        (exprs_view args.now) }
    ensures w2 { result.w2 ≡ (list_any (some_part (of_constant spec.is_too_large))
        (exprs_view args.now) || list_any (some_part (spec.is_out_of_range variables.now))
        (exprs_view args.now)) }
    ensures w3 { result.w3 ≡ list_any (some_part (spec.is_wide_choice variables.now))
        (exprs_view args.now) }
    ensures w4 { result.w4 ≡ false }
    ensures w5 { result.w5 ≡ straight.are_wrong (map param_view params.now)
        (map (flatten.width_of variables.now) (exprs_view args.now)) }
    ensures w6 { result.w6 ≡ false }
{
    let measure = measured_args(variables, args);
    let mut faults = NONE;
    faults.w1 = measure.unequal;
    faults.w2 = measure.too_large || measure.out_of_range;
    faults.w3 = measure.wide_choice;
    faults.w5 = !call_fits(variables, args, params);
    faults
}

// The arguments of the start clause.
fn in_start(params: &[Param], args: &[Literal]) -> Faults
    ensures w1 { result.w1 ≡ false }
    ensures w2 { result.w2 ≡ list_any spec.is_too_large (map literal_view args.now) }
    ensures w3 { result.w3 ≡ false }
    ensures w4 { result.w4 ≡ false }
    ensures w5 { result.w5 ≡ straight.are_wrong (map param_view params.now)
        (map (λ (l : tree.Literal). l.width) (map literal_view args.now)) }
    ensures w6 { result.w6 ≡ false }
{
    let mut faults = NONE;
    faults.w2 = has_too_large(args);
    faults.w5 = !start_fits(args, params);
    faults
}
