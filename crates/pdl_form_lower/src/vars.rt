// Variables by number.
ghost use Rattle.std.specs.Prelude.{◌≡◌, ◌<◌, ◌≤◌, ◌||◌, [], ◌∷◌, ◌++◌, map, bytes_eq, false, IfOk, OnOk, OnErr, IsTrue, None, length, replicate, slice_index_or};
ghost use Rattle.pdl_semantics.specs.Flatten.{Var, var_of, var_width, is_advised_var};
ghost use Rattle.pdl_rules.specs.Typed.{is_named};
ghost use Rattle.pdl_rules_widths.specs.Variables.{number_among};
ghost use Rattle.pdl_form_lower.specs.Variables.{with_number};
ghost use Rattle.pdl_form_lower.specs.declared.vars.NumberedVariable.{NumberedVariable};
ghost use Rattle.pdl_word.specs.Words.{widest};

use crate::append::append;
use pdl_kit::{Name, NoMemory};
use pdl_rules_widths::Variables;
use std::alloc::{AllocError, Global};
use std::marker::Model;

/// A variable with its width in bits, the place of its name in the table, and whether it is advised; the guard of an `if` on an expression has no name.
#[derive(Clone, Copy)]
pub struct NumberedVariable {
    pub place: Option<usize>,
    pub width: u8,
    pub advised: bool,
}

/// The variables that a walk over a pipe has defined, in their order; of a name that is defined twice the first definition holds.
#[derive(Drop)]
pub struct Vars<'v> {
    // All variables of the pipe, by which names are resolved.
    table: &'v Variables,
    // The number of each of them, once the walk has defined it.
    numbers: Vec<Option<usize>>,
    vars: Vec<NumberedVariable>,
}

impl<'v> Model for Vars<'v> {
    ghost use Rattle.pdl_form_lower.specs.Variables.{Scope, vars_of, AreNumbered};

    ghost Value = { Scope };

    ghost view = { λ s. record { table = s.table.now; vars = vars_of s.table.now s.vars.items } };

    ghost invariant = { λ s. AreNumbered s.table.now s.numbers.items (vars_of s.table.now s.vars.items) };
}

impl<'v> Vars<'v> {
    /// No variables yet, in a pipe that has those of the table.
    pub fn new(alloc: Global, table: &'v Variables) -> Result<Vars<'v>, NoMemory>
        ensures { IfOk result (λ vs. vs ≡ record { table = table.now; vars = [] }) }
    {
        Ok(Vars {
            table,
            numbers: no_numbers(alloc, table.len())?,
            vars: Vec::new(alloc),
        })
    }

    /// How many there are.
    pub fn len(&self) -> usize
        ensures { result ≡ length self.now.vars }
    {
        self.vars.len()
    }

    /// Adds a variable of the table.
    pub fn define(&mut self, name: &Name, width: u8, advised: bool) -> Result<(), NoMemory>
        requires known { IsTrue (is_named self.old.table name.now) }
        requires small { width ≤ widest }
        ensures vars { OnOk result (self.new.vars
            ≡ self.old.vars ++ record {
              name = name.now;
              width = width;
              advised = advised;
            } ∷ []) }
        ensures table { OnOk result (self.new.table ≡ self.old.table) }
    {
        self.add(name, width, advised)
    }

    /// Adds the guard of an `if` on an expression, which has 1 bit and no name.
    pub fn define_guard(&mut self, alloc: Global) -> Result<(), NoMemory>
        ensures vars { OnOk result (self.new.vars
            ≡ self.old.vars ++ record { name = []; width = 1; advised = false } ∷ []) }
        ensures table { OnOk result (self.new.table ≡ self.old.table) }
    {
        let unnamed = Name::copy_of(alloc, b"")?;
        self.add(&unnamed, 1, false)
    }

    // Adds a variable of the table, or one with the empty name, which no variable of a source has.
    fn add(&mut self, name: &Name, width: u8, advised: bool) -> Result<(), NoMemory>
        requires known { IsTrue (bytes_eq name.now [] || is_named self.old.table name.now) }
        requires small { width ≤ widest }
        ensures vars { OnOk result (self.new.vars
            ≡ self.old.vars ++ record {
              name = name.now;
              width = width;
              advised = advised;
            } ∷ []) }
        ensures table { OnOk result (self.new.table ≡ self.old.table) }
    {
        let place = self.table.position(name);
        let number = self.vars.len();
        let variable = NumberedVariable {
            place,
            width,
            advised,
        };
        append(&mut self.vars, variable)?;
        if let Some(place) = place {
            enter(&mut self.numbers, place, number);
        }
        Ok(())
    }

    /// The number of a variable of the table, or how many there are where it isn't defined yet.
    pub fn number(&self, name: &Name) -> usize
        requires { IsTrue (is_named self.now.table name.now) }
        ensures { result ≡ var_of self.now.vars name.now }
    {
        match self.find(name) {
            Some(number) => number,
            None => self.vars.len(),
        }
    }

    /// The width of a variable of the table, 0 where it isn't defined yet.
    pub fn width(&self, name: &Name) -> u8
        requires { IsTrue (is_named self.now.table name.now) }
        ensures value { result ≡ var_width self.now.vars name.now }
        ensures small { result ≤ widest }
    {
        match self.find(name) {
            Some(number) => width_at(self.vars.as_slice(), number),
            None => 0,
        }
    }

    /// Whether a variable of the table is advised; one that isn't defined yet isn't.
    pub fn is_advised(&self, name: &Name) -> bool
        requires { IsTrue (is_named self.now.table name.now) }
        ensures { result ≡ is_advised_var self.now.vars name.now }
    {
        match self.find(name) {
            Some(number) => is_advised_at(self.vars.as_slice(), number),
            None => false,
        }
    }

    // The number of a variable of the table, once it is defined.
    fn find(&self, name: &Name) -> Option<usize>
        requires { IsTrue (is_named self.now.table name.now) }
        ensures { result ≡ number_among self.now.vars name.now }
    {
        match self.table.position(name) {
            Some(place) => self.numbers[place],
            None => unreachable!(),
        }
    }

    /// The widths of all variables in their order.
    pub fn widths(&self, alloc: Global) -> Result<Vec<u8>, NoMemory>
        ensures { IfOk result (λ ws. ws.items ≡ map (λ (v : Var). v.width) self.now.vars) }
    {
        Ok(widths_of(alloc, self.vars.as_slice())?)
    }
}

// No number for any of this many variables.
fn no_numbers(alloc: Global, count: usize) -> Result<Vec<Option<usize>>, NoMemory>
    ensures { IfOk result (λ ns. ns.items ≡ replicate count None) }
{
    let mut numbers = Vec::new(alloc);
    numbers.resize(count, None)?;
    Ok(numbers)
}

// Gives the variable at a place its number, unless it has one.
fn enter(numbers: &mut Vec<Option<usize>>, place: usize, number: usize)
    requires { place < length numbers.old.items }
    ensures { numbers.new.items ≡ with_number numbers.old.items place number }
{
    if numbers[place].is_none() {
        numbers[place] = Some(number);
    }
}

fn width_at(vars: &[NumberedVariable], number: usize) -> u8
    requires { number < length vars.now }
    ensures { (d : NumberedVariable) → result ≡ (slice_index_or vars.now number d).width }
{
    vars[number].width
}

fn is_advised_at(vars: &[NumberedVariable], number: usize) -> bool
    requires { number < length vars.now }
    ensures { (d : NumberedVariable) → result ≡ (slice_index_or vars.now number d).advised }
{
    vars[number].advised
}

fn widths_of(alloc: Global, vars: &[NumberedVariable]) -> Result<Vec<u8>, AllocError>
    ensures { IfOk result (λ ws. ws.items ≡ map (λ v. v.width) vars.now) }
{
    vars.iter().map(|v| v.width).collect(alloc)
}
