// The guards of a pipe.
ghost use Rattle.std.specs.Prelude.{◌≡◌, ◌^◌, ◌≤◌, [], IfOk, OnOk, OnErr, length, map};
ghost use Rattle.pdl_rules.specs.Places as rules;
ghost use Rattle.pdl_paths.specs.Actions.{place_view};
ghost use Rattle.pdl_paths.specs.Guards.{branch_view, guard_view};
ghost use Rattle.pdl_paths.specs.KeptGuards.{kept_view};
ghost use Rattle.pdl_paths.specs.Masks.{AreMasked, mask_of as spec_mask_of, number_of, with_new};

use crate::action::Action;
use crate::branch::{Branch, Guard, guard_of};
use crate::mask::{EVERYWHERE, Mask};
use crate::place::Place;
use crate::readers::branches_at;
use pdl_kit::{Name, NoMemory};
use std::alloc::Global;
use std::marker::Model;

// A guard that keeps its name.
#[derive(Drop)]
enum KeptGuard {
    Shared(Name),
    Own(u32),
}

/// Guards in text order, each once; each is known by its number, counted from 0.
#[derive(Drop)]
pub struct Guards {
    items: Vec<KeptGuard>,
}

impl Model for Guards {
    ghost use Rattle.std.specs.Prelude.{List, map};
    ghost use Rattle.pdl_rules.specs.Places as rules;
    ghost use Rattle.pdl_paths.specs.KeptGuards.{kept_view};

    ghost Value = { List rules.Guard };

    ghost view = { λ s. map kept_view s.items.items };
}

impl Guards {
    /// No guards.
    pub fn new(alloc: Global) -> Guards
        ensures { result ≡ [] }
    {
        Guards {
            items: Vec::new(alloc),
        }
    }

    /// The guards of these places.
    pub fn of(alloc: Global, places: &[Place<'_>]) -> Result<Guards, NoMemory>
        ensures { IfOk result (λ gs. gs ≡ rules.guards (map place_view places.now)) }
    {
        let mut guards = Guards::new(alloc);
        for place in places {
            guards.add(place)?;
        }
        Ok(guards)
    }

    /// Adds the guard of an `if`, unless it is there; any other place has none. Where memory runs out the guards stay as they were.
    pub fn add(&mut self, place: &Place<'_>) -> Result<(), NoMemory>
        ensures ok { OnOk result (self.new ≡ rules.with_guard self.old (place_view place.now)) }
        ensures err { OnErr result (self.new ≡ self.old) }
    {
        match place.action {
            Action::If(condition, _, _) => self.define(guard_of(place.span, condition)),
            Action::Parameter(_) | Action::Memory(_) | Action::Separator => Ok(()),
            Action::CombRead(_, _) | Action::Bind(_, _) | Action::SpecCall(_, _) => Ok(()),
            Action::DelayedRead(_, _) | Action::Write(_, _) | Action::Reserve(_, _) => Ok(()),
            Action::Block(_) | Action::Release(_) | Action::Call(_) => Ok(()),
            Action::Verify(_, _) | Action::Update(_, _) => Ok(()),
            Action::SpecCheck | Action::SpecBarrier | Action::End | Action::StartClause(_) => Ok(
                (),
            ),
        }
    }

    // Adds a guard, unless it is there.
    fn define(&mut self, guard: Guard<'_>) -> Result<(), NoMemory>
        ensures ok { OnOk result (self.new ≡ with_new (guard_view guard.entry) self.old) }
        ensures err { OnErr result (self.new ≡ self.old) }
    {
        if self.number(guard) < self.len() {
            return Ok(());
        }
        self.items.push(keep(guard)?)?;
        Ok(())
    }

    /// How many guards there are.
    pub fn len(&self) -> usize
        ensures { result ≡ length self.now }
    {
        self.items.len()
    }

    /// How many paths at most ten guards have.
    pub fn path_count(&self) -> u32
        requires { length self.now ≤ 10 }
        ensures { result ≡ 2 ^ length self.now }
    {
        1u32 << self.items.len()
    }

    /// The number of a guard; how many there are where it is none of them.
    pub fn number(&self, guard: Guard<'_>) -> usize
        ensures { result ≡ number_of (guard_view guard.entry) self.now }
    {
        let mut number = 0;
        for kept in &self.items {
            if is_same(guard, kept) {
                return number;
            }
            number += 1;
        }
        number
    }

    /// Sets the masks of places by these guards; else the places stay as they were.
    pub fn set_masks(&self, places: &mut [Place<'_>])
        ensures places { map place_view places.new ≡ map place_view places.old }
        ensures masks { AreMasked self.now places.new }
    {
        for place in places.iter_mut() {
            place.mask = self.mask_of(branches_at(place));
        }
    }

    // The mask of what stands in these branches.
    fn mask_of(&self, branches: &[Branch<'_>]) -> Mask
        ensures { result ≡ spec_mask_of self.now (map branch_view branches.now) }
    {
        let mut mask = EVERYWHERE;
        for branch in branches {
            mask = mask.with(self.number(branch.guard), branch.truth);
        }
        mask
    }
}

// Whether a guard is the kept one.
fn is_same(guard: Guard<'_>, kept: &KeptGuard) -> bool
    ensures { result ≡ rules.same_guard (guard_view guard.entry) (kept_view kept.now) }
{
    match (guard, kept) {
        (Guard::Shared(x), KeptGuard::Shared(y)) => *x == *y,
        (Guard::Own(m), KeptGuard::Own(n)) => m == *n,
        (Guard::Shared(_), KeptGuard::Own(_)) | (Guard::Own(_), KeptGuard::Shared(_)) => false,
    }
}

fn keep(guard: Guard<'_>) -> Result<KeptGuard, NoMemory>
    ensures { IfOk result (λ kept. kept_view kept ≡ guard_view guard.entry) }
{
    match guard {
        Guard::Shared(x) => Ok(KeptGuard::Shared(x.clone()?)),
        Guard::Own(at) => Ok(KeptGuard::Own(at)),
    }
}
