// The registers of a stage, and what needs none.
ghost use Rattle.std.specs.Prelude.{◌≡◌, ◌<◌, ◌≤◌, ◌^◌, [], IsTrue, IfOk, IfSome, OnOk, length, slice_index, slice_index_or};
ghost use Rattle.pdl_form.specs.FormView.{form};
ghost use Rattle.pdl_word.specs.Each.{Each};
ghost use Rattle.pdl_net.specs.declared.Net.TheVariants.{Reg as RegNet};
ghost use Rattle.pdl_net.specs.Meaning.{IsThere, Means, signal};
ghost use Rattle.pdl_net.specs.Growth.{Extends};
ghost use Rattle.pdl_pipe_exprs.specs.Nets.{signals_in};
ghost use Rattle.pdl_pipe_registers.specs.Items.{IsConstant, ended_item};
ghost use Rattle.pdl_pipe_registers.specs.Stages.{end_of, view_in, IsRegister};
ghost use Rattle.pdl_pipe_registers.specs.Begun.{earlier_views, with_item, IsShared, IsEnded, IsEarlier, IsItem, IsCommonNet};
ghost use Rattle.pdl_word.specs.Words.{widest};

use crate::nets::{Earlier, Item, Shared, StageNets, StageRegs};
use pdl_build::Builder;
use pdl_form::FlatPipe;
use pdl_kit::{NoMemory, Seq};
use pdl_net::Net;
use pdl_pipe_exprs::are_same;
use pdl_pipe_exprs::exprs::variable;
use pdl_word::Word;
use std::alloc::Global;

impl StageRegs {
    /// The register that tells whether a stage holds a thread, with this value at reset.
    pub fn new(alloc: Global, b: &mut Builder, reset: Word) -> Result<StageRegs, NoMemory>
        requires { reset < 2 }
        ensures place { IfOk result (λ r. r.valid ≡ length b.old.regs) }
        ensures none { IfOk result (λ r. r.items ≡ []) }
        ensures last { IfOk result (λ r. end_of r ≡ length b.new.regs) }
        ensures register { OnOk result (IsRegister b.new (length b.old.regs) 1 reset) }
        ensures extends { Extends b.old b.new }
    {
        let valid = b.reg(1, reset)?;
        Ok(StageRegs {
            valid,
            items: Seq::new(alloc),
        })
    }

    /// One more register, which keeps this.
    pub fn keep(
        &mut self,
        b: &mut Builder,
        item: Item,
        width: u8,
        reset: Word,
    ) -> Result<Net, NoMemory>
        requires low { 1 ≤ width }
        requires high { width ≤ widest }
        requires fits { reset < 2 ^ width }
        requires last { end_of self.old ≡ length b.old.regs }
        ensures net { IfOk result (λ x. x ≡ RegNet (end_of self.old)) }
        ensures item { OnOk result (self.new ≡ with_item self.old item) }
        ensures last { OnOk result (end_of self.new ≡ length b.new.regs) }
        ensures register { OnOk result (IsRegister b.new (end_of self.old) width reset) }
        ensures extends { Extends b.old b.new }
    {
        let r = b.reg(width, reset)?;
        self.items.push(item)?;
        Ok(Net::Reg(r))
    }
}

/// Whether a net is a constant.
pub fn is_fixed(b: &Builder, net: Net) -> bool
    requires { IsThere b.now net }
    ensures { IsTrue result → IsConstant (signal b.now net) }
{
    match b.constant_of(net) {
        Some(_) => true,
        None => false,
    }
}

/// What a stage ends with for an item.
pub fn ended(b: &Builder, pipe: &FlatPipe, shared: &Shared<'_>, s: &StageNets, item: Item) -> Net
    requires shared { IsShared b.now (form pipe.now) shared.now }
    requires ended { IsEnded b.now (form pipe.now) (signals_in b.now shared.now.next) s.now }
    requires item { IsItem (form pipe.now) item }
    ensures { Means b.now result (ended_item (view_in b.now s.now) item) }
{
    let _vars = pipe.vars();
    match item {
        Item::Var(x) => variable(b, s.end.vars.as_slice(), x),
        Item::Mark { mark, mem, var } => s.end.is_marked(b, shared.bits, mark, mem, var),
        Item::Ticket(m) => variable(b, s.tickets.as_slice(), m),
        Item::Guess(i) => variable(b, s.end.guess.as_slice(), i),
    }
}

// The earlier stage of a number.
pub(crate) fn stage_at<'a>(earlier: &Earlier<'a>, j: usize) -> &'a StageNets
    requires { j < length earlier.now.stages.now }
    ensures { result.now ≡ slice_index_or earlier.now.stages.now j result.now }
{
    &earlier.stages[j]
}

// One of the stages that may lead here, by its place among them.
pub(crate) fn way_at(earlier: &Earlier<'_>, i: usize) -> usize
    requires low { i < length earlier.now.ways.now }
    requires each { Each (λ j. j < length earlier.now.stages.now) earlier.now.ways.now }
    ensures way { result ≡ slice_index earlier.now.ways.now i }
    ensures low { result < length earlier.now.stages.now }
{
    earlier.ways[i]
}

// What one of the stages that may lead here ends with for an item.
pub(crate) fn coming(
    b: &Builder,
    pipe: &FlatPipe,
    shared: &Shared<'_>,
    earlier: &Earlier<'_>,
    i: usize,
    item: Item,
) -> Net
    requires shared { IsShared b.now (form pipe.now) shared.now }
    requires earlier { IsEarlier b.now (form pipe.now)
        (signals_in b.now shared.now.next) earlier.now }
    requires low { i < length earlier.now.ways.now }
    requires item { IsItem (form pipe.now) item }
    ensures { Means b.now result (ended_item
        (earlier_views b.now earlier.now (slice_index earlier.now.ways.now i)) item) }
{
    let j = way_at(earlier, i);
    ended(b, pipe, shared, stage_at(earlier, j), item)
}

/// The net with which all stages that may lead here end for an item, where there is one and it never changes.
pub fn common(
    b: &Builder,
    pipe: &FlatPipe,
    shared: &Shared<'_>,
    earlier: &Earlier<'_>,
    item: Item,
) -> Option<Net>
    requires shared { IsShared b.now (form pipe.now) shared.now }
    requires earlier { IsEarlier b.now (form pipe.now)
        (signals_in b.now shared.now.next) earlier.now }
    requires item { IsItem (form pipe.now) item }
    ensures { IfSome result (λ x.
        IsCommonNet b.now (earlier_views b.now earlier.now) earlier.now.ways.now item x) }
{
    let count = earlier.ways.len();
    if count == 0 {
        return None;
    }
    let net = coming(b, pipe, shared, earlier, 0, item);
    if !is_fixed(b, net) {
        return None;
    }
    for i in 1..count {
        if !are_same(net, coming(b, pipe, shared, earlier, i, item)) {
            return None;
        }
    }
    Some(net)
}
