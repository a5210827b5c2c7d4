// What is counted along the text.
ghost use Rattle.std.specs.Prelude.{◌≡◌, ◌+◌, ◌<◌, [], length, map, take, if◌then◌else◌};
ghost use Rattle.pdl_rules.specs.Limits as spec;
ghost use Rattle.pdl_paths.specs.Actions.{place_view};
ghost use Rattle.pdl_rules_judge.specs.Counts.{AreCounts};

use pdl_paths::{Action, Place, is_separator};

/// How many statements, separators, memories and bindings were passed; the parameters count as bindings.
#[derive(Clone, Copy)]
pub struct Counts {
    pub statements: usize,
    pub separators: usize,
    pub memories: usize,
    pub bindings: usize,
}

impl Counts {
    /// Nothing was passed.
    pub fn new() -> Counts
        ensures { AreCounts [] result }
    {
        Counts {
            statements: 0,
            separators: 0,
            memories: 0,
            bindings: 0,
        }
    }

    /// The counts after the k-th place.
    pub fn with(self, places: &[Place<'_>], k: usize) -> Counts
        requires here { k < length places.now }
        requires counts { AreCounts (take k (map place_view places.now)) self }
        ensures { AreCounts (take (k + 1) (map place_view places.now)) result }
    {
        let place = &places[k];
        let end = places.len();
        Counts {
            statements: one_more(self.statements, is_statement(place), end),
            separators: one_more(self.separators, is_separator(place), end),
            memories: one_more(self.memories, is_memory(place), end),
            bindings: one_more(self.bindings, is_binding(place), end),
        }
    }
}

// A count below an end, with one more where it counts.
fn one_more(count: usize, counts: bool, end: usize) -> usize
    requires { count < end }
    ensures { result ≡ (if counts then count + 1 else count) }
{
    if counts { count + 1 } else { count }
}

/// Whether a statement stands at the place.
pub fn is_statement(place: &Place<'_>) -> bool
    ensures { result ≡ spec.is_statement (place_view place.now) }
{
    match place.action {
        Action::Parameter(_) | Action::Memory(_) | Action::End | Action::StartClause(_) => false,
        Action::Separator | Action::CombRead(_, _) | Action::Bind(_, _) => true,
        Action::SpecCall(_, _) | Action::DelayedRead(_, _) | Action::Write(_, _) => true,
        Action::Reserve(_, _) | Action::Block(_) | Action::Release(_) => true,
        Action::If(_, _, _) | Action::Call(_) | Action::Verify(_, _) | Action::Update(_, _) => true,
        Action::SpecCheck | Action::SpecBarrier => true,
    }
}

/// Whether the place declares a memory.
pub fn is_memory(place: &Place<'_>) -> bool
    ensures { result ≡ spec.is_memory (place_view place.now) }
{
    match place.action {
        Action::Memory(_) => true,
        Action::Parameter(_) | Action::Separator | Action::CombRead(_, _) => false,
        Action::Bind(_, _) | Action::SpecCall(_, _) | Action::DelayedRead(_, _) => false,
        Action::Write(_, _) | Action::Reserve(_, _) | Action::Block(_) => false,
        Action::Release(_) | Action::If(_, _, _) | Action::Call(_) => false,
        Action::Verify(_, _) | Action::Update(_, _) | Action::SpecCheck => false,
        Action::SpecBarrier => false,
        Action::End | Action::StartClause(_) => false,
    }
}

/// Whether the place is a parameter, binds a name or makes a guess.
pub fn is_binding(place: &Place<'_>) -> bool
    ensures { result ≡ spec.is_binding (place_view place.now) }
{
    match place.action {
        Action::Parameter(_) | Action::CombRead(_, _) | Action::Bind(_, _) => true,
        Action::SpecCall(_, _) | Action::DelayedRead(_, _) => true,
        Action::Memory(_) | Action::Separator | Action::Write(_, _) => false,
        Action::Reserve(_, _) | Action::Block(_) | Action::Release(_) => false,
        Action::If(_, _, _) | Action::Call(_) | Action::Verify(_, _) => false,
        Action::Update(_, _) => false,
        Action::SpecCheck | Action::SpecBarrier | Action::End | Action::StartClause(_) => false,
    }
}
