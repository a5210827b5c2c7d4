// The variables of a pipe.
ghost use Rattle.std.specs.Prelude.{◌≡◌, List, [], OnOk, IfOk, map, fold, length};
ghost use Rattle.pdl_semantics.specs.Flatten.{Var, var_width, is_advised_var};
ghost use Rattle.pdl_syntax_tree.specs.View.{mem_view};
ghost use Rattle.pdl_rules.specs.Widths.{with_variable, after_place};
ghost use Rattle.pdl_paths.specs.Actions.{place_view};
ghost use Rattle.pdl_rules_widths.specs.Variables.{vars_of, width_among, number_among};

use crate::advised::is_advised;
use crate::memories::mem_width;
use crate::width::width_of;
use indexmap::IndexMap;
use pdl_kit::{Name, NoMemory};
use pdl_paths::{Action, Place};
use pdl_syntax_tree::{Mem, is_advisory};
use std::alloc::Global;
use std::marker::Model;

/// What is known of a variable: its width in bits, and whether it is advised.
#[derive(Clone, Copy)]
pub struct VariableType {
    pub width: u128,
    pub advised: bool,
}

/// Variables, each by its first definition, with its width in bits, and whether it is advised.
pub struct Variables {
    types: IndexMap<Name, VariableType>,
}

// As the derive would, but by a call of its owners: docs/DECISIONS.md says why.
impl Drop for Variables {
    fn drop(self) {
        let Variables { types: _ } = self;
    }
}

impl Model for Variables {
    ghost use Rattle.std.specs.Prelude.{List};
    ghost use Rattle.pdl_semantics.specs.Flatten.{Var};
    ghost use Rattle.pdl_rules_widths.specs.Variables.{vars_of};

    ghost Value = { List Var };

    ghost view = { λ s. vars_of s.types.entries };
}

impl Variables {
    /// No variables yet.
    pub fn new(alloc: Global) -> Variables
        ensures { result ≡ [] }
    {
        Variables {
            types: IndexMap::new(alloc),
        }
    }

    /// The variables that these places define, in text order.
    pub fn of(alloc: Global, mems: &[Mem], places: &[Place<'_>]) -> Result<Variables, NoMemory>
        ensures { IfOk result (λ vs. vs
            ≡ fold (after_place (map mem_view mems.now)) [] (map place_view places.now)) }
    {
        let mut variables = Variables::new(alloc);
        for k in 0..places.len() {
            variables.add(mems, &places[k])?;
        }
        Ok(variables)
    }

    // Adds the variable that a place defines.
    fn add(&mut self, mems: &[Mem], place: &Place<'_>) -> Result<(), NoMemory>
        ensures { OnOk result (self.new
            ≡ after_place (map mem_view mems.now) self.old (place_view place.now)) }
    {
        match place.action {
            Action::Parameter(param) => {
                self.define(&param.name.name, param.width.value as u128, false)
            }
            Action::CombRead(x, at) => {
                let mem = &at.mem.name;
                self.define(&x.name, mem_width(mems, mem), is_advisory(mems, mem))
            }
            Action::DelayedRead(x, at) => {
                self.define(&x.name, mem_width(mems, &at.mem.name), false)
            }
            Action::Bind(x, e) => {
                let width = width_of(self, e);
                let advised = is_advised(self, e);
                self.define(&x.name, width, advised)
            }
            Action::Memory(_) | Action::Separator | Action::SpecCall(_, _) => Ok(()),
            Action::Write(_, _) | Action::Reserve(_, _) | Action::Block(_) => Ok(()),
            Action::Release(_) | Action::If(_, _, _) | Action::Call(_) => Ok(()),
            Action::Verify(_, _) | Action::Update(_, _) | Action::SpecCheck => Ok(()),
            Action::SpecBarrier => Ok(()),
            Action::End | Action::StartClause(_) => Ok(()),
        }
    }

    // Adds a variable, unless it is there.
    fn define(&mut self, name: &Name, width: u128, advised: bool) -> Result<(), NoMemory>
        ensures ok { OnOk result (self.new ≡ with_variable self.old name.now width advised) }
    {
        if self.types.get(name).is_some() {
            return Ok(());
        }
        let name = name.clone()?;
        self.types.insert(name, VariableType { width, advised })?;
        Ok(())
    }

    /// The width of a variable in bits, 0 where there is none of that name.
    pub fn width(&self, name: &Name) -> u128
        ensures { result ≡ var_width self.now name.now }
    {
        match self.types.get(name) {
            Some(of) => of.width,
            None => 0,
        }
    }

    /// Whether a variable is advised; none of that name isn't.
    pub fn is_advised(&self, name: &Name) -> bool
        ensures { result ≡ is_advised_var self.now name.now }
    {
        match self.types.get(name) {
            Some(of) => of.advised,
            None => false,
        }
    }

    /// The width of a variable in bits, none where there is none of that name.
    pub fn find(&self, name: &Name) -> Option<u128>
        ensures { result ≡ width_among self.now name.now }
    {
        match self.types.get(name) {
            Some(of) => Some(of.width),
            None => None,
        }
    }

    /// How many there are.
    pub fn len(&self) -> usize
        ensures { result ≡ length self.now }
    {
        self.types.len()
    }

    /// The place of a variable among them, none where there is none of that name.
    pub fn position(&self, name: &Name) -> Option<usize>
        ensures { result ≡ number_among self.now name.now }
    {
        self.types.get_index_of(name)
    }
}
