// What rules read of a place.
ghost use Rattle.std.specs.Prelude.{◌≡◌, map, option_map};
ghost use Rattle.std.specs.Option.{option_copied};
ghost use Rattle.pdl_syntax_tree.specs.View.{location_view};
ghost use Rattle.pdl_rules.specs.Calls as calls;
ghost use Rattle.pdl_rules.specs.Limits as limits;
ghost use Rattle.pdl_rules.specs.Names as names;
ghost use Rattle.pdl_rules.specs.Stages as stages;
ghost use Rattle.pdl_paths.specs.Actions.{location_at as spec_location_at, place_view};
ghost use Rattle.pdl_paths.specs.Guards.{branch_view};

use crate::action::Action;
use crate::branch::Branch;
use crate::place::Place;
use pdl_kit::Name;
use pdl_syntax_tree::Location;

/// The branches that a place stands in, the outermost first; only statements stand in any.
pub fn branches_at<'a, 'b>(place: &'b Place<'a>) -> &'b [Branch<'a>]
    ensures { map branch_view result.now ≡ stages.branches_of (place_view place.now) }
{
    match place.action {
        Action::Parameter(_) | Action::Memory(_) | Action::End | Action::StartClause(_) => &[],
        Action::Separator | Action::CombRead(_, _) | Action::Bind(_, _) => {
            place.branches.as_slice()
        }
        Action::SpecCall(_, _) | Action::DelayedRead(_, _) => place.branches.as_slice(),
        Action::Write(_, _) | Action::Reserve(_, _) => place.branches.as_slice(),
        Action::Block(_) | Action::Release(_) | Action::If(_, _, _) => place.branches.as_slice(),
        Action::Call(_) | Action::Verify(_, _) | Action::Update(_, _) => place.branches.as_slice(),
        Action::SpecCheck | Action::SpecBarrier => place.branches.as_slice(),
    }
}

/// The variable that a place defines: a parameter, or what a statement binds.
pub fn variable_at<'a>(place: &Place<'a>) -> Option<&'a Name>
    ensures { option_copied result ≡ names.variable_at (place_view place.now) }
{
    match place.action {
        Action::Parameter(param) => Some(&param.name.name),
        Action::CombRead(x, _) | Action::Bind(x, _) | Action::DelayedRead(x, _) => Some(&x.name),
        Action::Memory(_) | Action::Separator | Action::SpecCall(_, _) => None,
        Action::Write(_, _) | Action::Reserve(_, _) | Action::Block(_) | Action::Release(_) => None,
        Action::If(_, _, _) | Action::Call(_) | Action::Verify(_, _) => None,
        Action::Update(_, _) | Action::SpecCheck => None,
        Action::SpecBarrier | Action::End | Action::StartClause(_) => None,
    }
}

/// The memory that a place declares.
pub fn memory_at<'a>(place: &Place<'a>) -> Option<&'a Name>
    ensures { option_copied result ≡ names.memory_at (place_view place.now) }
{
    match place.action {
        Action::Memory(mem) => Some(&mem.name.name),
        Action::Parameter(_) | Action::Separator | Action::CombRead(_, _) => None,
        Action::Bind(_, _) | Action::SpecCall(_, _) | Action::DelayedRead(_, _) => None,
        Action::Write(_, _) | Action::Reserve(_, _) | Action::Block(_) | Action::Release(_) => None,
        Action::If(_, _, _) | Action::Call(_) | Action::Verify(_, _) => None,
        Action::Update(_, _) | Action::SpecCheck => None,
        Action::SpecBarrier | Action::End | Action::StartClause(_) => None,
    }
}

/// The guess that a place makes.
pub fn guess_at<'a>(place: &Place<'a>) -> Option<&'a Name>
    ensures { option_copied result ≡ names.guess_at (place_view place.now) }
{
    match place.action {
        Action::SpecCall(guess, _) => Some(&guess.name),
        Action::Parameter(_) | Action::Memory(_) | Action::Separator => None,
        Action::CombRead(_, _) | Action::Bind(_, _) | Action::DelayedRead(_, _) => None,
        Action::Write(_, _) | Action::Reserve(_, _) | Action::Block(_) | Action::Release(_) => None,
        Action::If(_, _, _) | Action::Call(_) | Action::Verify(_, _) => None,
        Action::Update(_, _) | Action::SpecCheck => None,
        Action::SpecBarrier | Action::End | Action::StartClause(_) => None,
    }
}

/// The name that a place defines, of whatever kind.
pub fn name_at<'a>(place: &Place<'a>) -> Option<&'a Name>
    ensures { option_copied result ≡ names.name_at (place_view place.now) }
{
    match place.action {
        Action::Parameter(param) => Some(&param.name.name),
        Action::Memory(mem) => Some(&mem.name.name),
        Action::CombRead(x, _) | Action::Bind(x, _) | Action::DelayedRead(x, _) => Some(&x.name),
        Action::SpecCall(guess, _) => Some(&guess.name),
        Action::Separator | Action::Write(_, _) | Action::Reserve(_, _) | Action::Block(_) => None,
        Action::Release(_) | Action::If(_, _, _) | Action::Call(_) | Action::Verify(_, _) => None,
        Action::Update(_, _) => None,
        Action::SpecCheck | Action::SpecBarrier | Action::End | Action::StartClause(_) => None,
    }
}

/// The location that stands at a place.
pub fn location_at<'a>(place: &Place<'a>) -> Option<&'a Location>
    ensures { option_map (λ at. location_view at.now) result
        ≡ spec_location_at (place_view place.now) }
{
    match place.action {
        Action::CombRead(_, at) | Action::DelayedRead(_, at) | Action::Write(at, _) => Some(at),
        Action::Reserve(at, _) | Action::Block(at) | Action::Release(at) => Some(at),
        Action::Parameter(_) | Action::Memory(_) | Action::Separator | Action::Bind(_, _) => None,
        Action::SpecCall(_, _) | Action::If(_, _, _) | Action::Call(_) => None,
        Action::Verify(_, _) | Action::Update(_, _) | Action::SpecCheck => None,
        Action::SpecBarrier => None,
        Action::End | Action::StartClause(_) => None,
    }
}

/// Whether a place is a separator.
pub fn is_separator(place: &Place<'_>) -> bool
    ensures { result ≡ limits.is_separator (place_view place.now) }
{
    match place.action {
        Action::Separator => true,
        Action::Parameter(_) | Action::Memory(_) | Action::CombRead(_, _) => false,
        Action::Bind(_, _) | Action::SpecCall(_, _) | Action::DelayedRead(_, _) => false,
        Action::Write(_, _) | Action::Reserve(_, _) | Action::Block(_) | Action::Release(_) =>
            false,
        Action::If(_, _, _) | Action::Call(_) | Action::Verify(_, _) => false,
        Action::Update(_, _) | Action::SpecCheck => false,
        Action::SpecBarrier | Action::End | Action::StartClause(_) => false,
    }
}

/// Whether a place calls the next thread, speculatively or not.
pub fn is_call(place: &Place<'_>) -> bool
    ensures { result ≡ calls.is_call (place_view place.now) }
{
    match place.action {
        Action::Call(_) | Action::SpecCall(_, _) => true,
        Action::Parameter(_) | Action::Memory(_) | Action::Separator => false,
        Action::CombRead(_, _) | Action::Bind(_, _) | Action::DelayedRead(_, _) => false,
        Action::Write(_, _) | Action::Reserve(_, _) | Action::Block(_) | Action::Release(_) =>
            false,
        Action::If(_, _, _) | Action::Verify(_, _) | Action::Update(_, _) => false,
        Action::SpecCheck => false,
        Action::SpecBarrier | Action::End | Action::StartClause(_) => false,
    }
}
