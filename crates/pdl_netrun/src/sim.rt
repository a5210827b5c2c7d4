// The simulator.

ghost use Rattle.std.specs.Prelude.{◌≡◌, ◌<◌, ◌^◌, length, slice_index, IfOk};
ghost use Rattle.pdl_net.specs.Circuit.{circuit_of, outputs_of};
ghost use Rattle.pdl_net.specs.Well.{IsWell};
ghost use Rattle.pdl_net.specs.Run.{delayed_mems, committed_by, committed2_by, value_at};
ghost use Rattle.pdl_net.specs.Pipe.{IsWellFormed};
ghost use Rattle.pdl_image.specs.Images.{IsImage};
ghost use Rattle.pdl_netrun.specs.Outside.{AddressesFit, AreOutside, commit_at, stores_of};
ghost use Rattle.pdl_netrun.specs.Sim.{run_at, run_at_start, run_after};
ghost use Rattle.pdl_netrun.specs.Steps.{array_words};
ghost use Rattle.pdl_netrun.specs.Order.{IsOrderOf, AllPlaced};
ghost use Rattle.pdl_net.specs.Holds.{Holds};

use crate::cycle_plan::{CyclePlan, cycle_plan};
use crate::held::HeldWords;
use crate::order::{CellOrder, order_of};
use crate::outside::{Outside, answer_all, step_all};
use crate::places::{CommitPlaces, MemoryPlaces, all_places};
use crate::plan::{all_drivers, all_resets};
use crate::start::{all_arrays, all_outside, count_delayed, first_held};
use pdl_image::Image;
use pdl_kit::NoMemory;
use pdl_net::{Netlist, all_widths};
use pdl_word::Word;
use std::alloc::Global;
use std::marker::Model;

/// A netlist that runs, cycle by cycle, with room made for all that its calls use.
///
/// Its plan is made once: one list of values for inputs, registers and cells, and the cells in runs of one kind over places in that list, so that a cycle looks up no net and no width and asks for a kind once a run.
/// Between cycles it holds the values of registers and arrays at the start of the next cycle, and those of all nets in the last one.
pub struct Sim<'a> {
    net: &'a Netlist,
    plan: CyclePlan,
    /// The places of the outputs' values.
    drivers: Vec<u32>,
    commits: Vec<MemoryPlaces>,
    held: HeldWords,
    /// The delayed memories, in the order of their inputs.
    outside: Vec<Outside>,
    /// Room for the values of the inputs.
    inputs: Vec<Word>,
    /// Whether there was a cycle.
    shown: bool,
    /// Whether some request waited in the last cycle.
    waits: bool,
}

// As the derive would, but by a call of its owners: docs/DECISIONS.md says why.
impl Drop for Sim<'_> {
    fn drop(self) {
        let Sim {
            net: _,
            plan: _,
            drivers: _,
            commits: _,
            held: _,
            outside: _,
            inputs: _,
            shown: _,
            waits: _,
        } = self;
    }
}

impl<'a> Model for Sim<'a> {
    ghost use Rattle.pdl_netrun.specs.Sim.{Run};

    ghost Value = { Run };

    ghost use Rattle.pdl_netrun.specs.Inside.{run_of, IsReady};

    ghost view = { run_of };

    ghost invariant = { IsReady };
}

impl<'a> Sim<'a> {
    /// A simulator at the start of the first cycle: each register has its reset value, each delayed memory its part of the image, and each array its part, with zeros after it.
    pub fn new(alloc: Global, net: &'a Netlist, image: &Image) -> Result<Sim<'a>, NoMemory>
        requires well { IsWellFormed net.now }
        requires image { IsImage net.now.mems image.now }
        ensures { IfOk result (λ sim. sim ≡ run_at_start net.now image.now) }
    {
        let order = order_of(alloc, net)?;
        let delayed = count_delayed(net);
        let resets = all_resets(alloc, net)?;
        let arrays = all_arrays(alloc, net, image, delayed)?;
        let outside = all_outside(alloc, net, image, delayed)?;
        Sim::plan_of(alloc, net, &order, resets, arrays, outside)
    }

    /// The plan of a netlist, with the values of its registers and arrays at the start and its delayed memories.
    fn plan_of(
        alloc: Global,
        net: &'a Netlist,
        order: &CellOrder,
        next: Vec<Word>,
        arrays: Vec<Vec<Word>>,
        outside: Vec<Outside>,
    ) -> Result<Sim<'a>, NoMemory>
        requires well { IsWell (circuit_of net.now) }
        requires outside { AreOutside (circuit_of net.now) (delayed_mems net.now) outside.items }
        requires order { IsOrderOf order.now }
        requires same { order.now.net.now ≡ net.now }
        requires all { AllPlaced order.now }
        requires holds { Holds (circuit_of net.now) next.items (array_words arrays.items) }
        requires addresses { AddressesFit (circuit_of net.now) }
        ensures { IfOk result (λ sim. sim ≡ run_at net.now next.items (array_words arrays.items)
            (stores_of outside.items)) }
    {
        let widths = all_widths(alloc, net)?;
        let plan = cycle_plan(alloc, net, order, &widths)?;
        let drivers = all_drivers(alloc, net, order)?;
        let commits = all_places(alloc, net)?;
        let inputs = Vec::with_capacity(alloc, 2 * outside.len())?;
        let held = first_held(alloc, net, order, &widths, next, arrays)?;
        Ok(Sim {
            net,
            plan,
            drivers,
            commits,
            held,
            outside,
            inputs,
            shown: false,
            waits: false,
        })
    }

    /// Runs one cycle; bit j of `replies` belongs to the j-th delayed memory, and bits past the last one are ignored.
    pub fn cycle(&mut self, replies: u16)
        ensures { self.new ≡ run_after self.old replies }
    {
        self.waits = answer_all(&mut self.inputs, &self.outside, replies);
        self.held.step(&self.plan, &self.inputs);
        step_all(&mut self.outside, replies, &self.drivers, &self.held);
        self.shown = true;
    }

    /// The value of an output in the last cycle, 0 before the first one; outputs are counted from 0 in their order.
    pub fn port(&self, i: usize) -> Word
        requires { i < length (outputs_of (circuit_of self.now.netlist)) }
        ensures { result ≡ slice_index self.now.last.ports i }
    {
        if self.shown {
            self.held.value(self.drivers[i])
        } else {
            0
        }
    }

    /// The value of an output in the last cycle, 0 where there is none.
    fn port_at(&self, place: Option<usize>) -> Word
        ensures { result ≡ value_at self.now.last.ports place }
    {
        match place {
            Some(i) if i < self.drivers.len() => self.port(i),
            _ => 0,
        }
    }

    /// What the ports at these places committed in the last cycle.
    fn committed(&self, places: CommitPlaces) -> Option<(u64, Word)>
        requires { value_at self.now.last.ports places.addr < 2 ^ 64 }
        ensures { result ≡ commit_at self.now.last.ports places }
    {
        if self.port_at(places.commit) == 1 {
            let addr = self.port_at(places.addr) as u64;
            Some((addr, self.port_at(places.value)))
        } else {
            None
        }
    }

    /// The address and the value that the m-th memory of the netlist committed in the last cycle.
    ///
    /// None where its commit port was 0 or it has none, and before the first cycle.
    pub fn commit(&self, m: usize) -> Option<(u64, Word)>
        requires { m < length self.now.netlist.mems }
        ensures { result ≡ committed_by self.now.netlist self.now.last m }
    {
        self.committed(self.commits[m].first)
    }

    /// The address and the value that it committed after that in the same cycle.
    ///
    /// None where its second commit port was 0 or it has none, and before the first cycle.
    pub fn commit2(&self, m: usize) -> Option<(u64, Word)>
        requires { m < length self.now.netlist.mems }
        ensures { result ≡ committed2_by self.now.netlist self.now.last m }
    {
        let places = self.commits[m].second;
        match places.commit {
            Some(_) => self.committed(places),
            None => None,
        }
    }

    /// Whether some request was outstanding at the start of the last cycle and wasn't answered in it.
    pub fn waited(&self) -> bool
        ensures { result ≡ self.now.last.waited }
    {
        self.waits
    }
}
