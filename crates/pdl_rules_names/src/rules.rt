// The rules on names, as they are asked along the text.
ghost use Rattle.std.specs.Prelude.{◌≡◌, ◌||◌, ⊤, bytes_eq, map};
ghost use Rattle.pdl_kit.specs.declared.rule.Rule.TheVariants as names;
ghost use Rattle.pdl_syntax_tree.specs.View.{pipe_view};
ghost use Rattle.pdl_rules.specs.Names as spec;
ghost use Rattle.pdl_rules.specs.Places.{places as spec_places, guards as spec_guards};
ghost use Rattle.pdl_rules.specs.Refusal.{breaks_rule};
ghost use Rattle.pdl_paths.specs.Actions.{place_view};
ghost use Rattle.pdl_rules_names.specs.Ready.{Suits, SuitsPaths, AreLast};
ghost use Rattle.pdl_rules_names.specs.Index.{IsIndex};
ghost use Rattle.pdl_rules_names.specs.First.{number_in, comes_before};

use crate::early::Early;
use crate::index::Index;
use crate::passed::{none_passed, separator_passed};
use crate::uses::{UseTest, some_use};
use pdl_kit::{Name, NoMemory};
use pdl_paths::{Action, Guards, Place, is_separator, name_at};
use pdl_rules_on_texts::TextRule;
use pdl_syntax_tree::Pipe;
use std::alloc::Global;

/// N1: a name that names nothing of its kind anywhere in the text.
#[derive(Clone, Copy)]
pub struct Undefined<'a> {
    pub pipe: &'a Pipe,
    pub index: &'a Index,
}

/// N2: a name that is taken, by the pipe or by a place before.
#[derive(Clone, Copy)]
pub struct TakenName<'a> {
    pub pipe: &'a Pipe,
    pub index: &'a Index,
}

/// N3: a use before its definition, in the text or on some path.
#[derive(Clone, Copy)]
pub struct TooEarly<'a> {
    pub pipe: &'a Pipe,
    pub index: &'a Index,
    pub guards: &'a Guards,
}

// The uses of names that nothing in these places defines.
#[derive(Clone, Copy)]
struct Missing<'a> {
    index: &'a Index,
    places: &'a [Place<'a>],
}

impl UseTest for Missing<'_> {
    ghost fits = { λ m. IsIndex m.index.now (map place_view m.places.now) };

    ghost test = { λ m. spec.is_undefined (map place_view m.places.now) };

    fn of_variable(&self, name: &Name) -> bool {
        self.index.variables.number(name).is_none()
    }

    fn of_memory(&self, name: &Name) -> bool {
        self.index.memories.number(name).is_none()
    }

    fn of_guess(&self, name: &Name) -> bool {
        self.index.guesses.number(name).is_none()
    }
}

impl TextRule for Undefined<'_> {
    type State = ();

    ghost fits = { λ rule xs. Suits rule.pipe.now rule.index.now xs };

    ghost breaks_on = { λ rule. breaks_rule names.N1 (pipe_view rule.pipe.now) };

    ghost stands = { λ rule before state. ⊤ };

    fn start(&self, _alloc: Global, _places: &[Place<'_>]) -> Result<(), NoMemory> {
        Ok(())
    }

    fn breaks(&self, _state: &(), places: &[Place<'_>], k: usize) -> bool {
        let place = &places[k];
        let missing = Missing {
            index: self.index,
            places,
        };
        names_another_pipe(self.pipe, place) || some_use(&missing, place)
    }

    fn step(
        &self,
        _alloc: Global,
        _state: &mut (),
        _places: &[Place<'_>],
        _k: usize,
    ) -> Result<(), NoMemory> {
        Ok(())
    }
}

// Whether the place is a start clause of another pipe.
fn names_another_pipe(pipe: &Pipe, place: &Place<'_>) -> bool
    ensures { result ≡ spec.names_another_pipe (pipe_view pipe.now) (place_view place.now) }
{
    match place.action {
        Action::StartClause(start) => start.name.name != pipe.name.name,
        Action::Parameter(_) | Action::Memory(_) | Action::Separator => false,
        Action::CombRead(_, _) | Action::Bind(_, _) | Action::SpecCall(_, _) => false,
        Action::DelayedRead(_, _) | Action::Write(_, _) | Action::Reserve(_, _) => false,
        Action::Block(_) | Action::Release(_) | Action::If(_, _, _) | Action::Call(_) => false,
        Action::Verify(_, _) | Action::Update(_, _) | Action::SpecCheck => false,
        Action::SpecBarrier | Action::End => false,
    }
}

impl TextRule for TakenName<'_> {
    type State = ();

    ghost fits = { λ rule xs. Suits rule.pipe.now rule.index.now xs };

    ghost breaks_on = { λ rule. breaks_rule names.N2 (pipe_view rule.pipe.now) };

    ghost stands = { λ rule before state. ⊤ };

    fn start(&self, _alloc: Global, _places: &[Place<'_>]) -> Result<(), NoMemory> {
        Ok(())
    }

    fn breaks(&self, _state: &(), places: &[Place<'_>], k: usize) -> bool {
        match name_at(&places[k]) {
            Some(name) => is_taken(self.pipe, self.index, name, k),
            None => false,
        }
    }

    fn step(
        &self,
        _alloc: Global,
        _state: &mut (),
        _places: &[Place<'_>],
        _k: usize,
    ) -> Result<(), NoMemory> {
        Ok(())
    }
}

// Whether the name is the pipe's, or a place before the k-th defines it.
fn is_taken(pipe: &Pipe, index: &Index, name: &Name, k: usize) -> bool
    ensures { result ≡ (bytes_eq name.now (pipe_view pipe.now).name.name
        || comes_before (number_in index.now.names name.now) k) }
{
    *name == pipe.name.name || is_before(index, name, k)
}

// Whether a place before the k-th defines the name.
fn is_before(index: &Index, name: &Name, k: usize) -> bool
    ensures { result ≡ comes_before (number_in index.now.names name.now) k }
{
    match index.names.number(name) {
        Some(first) => first < k,
        None => false,
    }
}

impl TextRule for TooEarly<'_> {
    // Of each path, by its bits, the number of the last separator passed.
    type State = Vec<usize>;

    ghost fits = { λ rule xs. (rule.guards.now
        ≡ spec_guards (spec_places (pipe_view rule.pipe.now)))
        × SuitsPaths rule.pipe.now rule.index.now xs };

    ghost breaks_on = { λ rule. breaks_rule names.N3 (pipe_view rule.pipe.now) };

    ghost stands = { λ rule before state.
        AreLast (spec_guards (spec_places (pipe_view rule.pipe.now))) before state.items };

    fn start(&self, alloc: Global, _places: &[Place<'_>]) -> Result<Vec<usize>, NoMemory> {
        none_passed(alloc, self.guards)
    }

    fn breaks(&self, state: &Vec<usize>, places: &[Place<'_>], k: usize) -> bool {
        let early = Early {
            pipe: self.pipe,
            index: self.index,
            places,
            last: state.as_slice(),
            k,
        };
        some_use(&early, &places[k])
    }

    fn step(
        &self,
        alloc: Global,
        state: &mut Vec<usize>,
        places: &[Place<'_>],
        k: usize,
    ) -> Result<(), NoMemory> {
        let place = &places[k];
        if !is_separator(place) {
            return Ok(());
        }
        let passed = separator_passed(alloc, state.as_slice(), place, k)?;
        *state = passed;
        Ok(())
    }
}
