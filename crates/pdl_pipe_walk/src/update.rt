// What the statements of a stage change of its nets.
ghost use Rattle.std.specs.Prelude.{◌≡◌, ◌==◌, ◌<◌, ◌^◌, ◌++◌, ◌∷◌, [], OnOk, length, slice_index, slice_set};
ghost use Rattle.pdl_form.specs.FormView.{form};
ghost use Rattle.pdl_net.specs.Meaning.{Means, signal};
ghost use Rattle.pdl_net.specs.HasWidth.{HasWidth};
ghost use Rattle.pdl_net.specs.Growth.{Extends};
ghost use Rattle.pdl_pipe_exprs.specs.Conditions.{AreBits};
ghost use Rattle.pdl_law_parts.specs.Walk.{one, both, if_on, same_mark as is_same};
ghost use Rattle.pdl_pipe_walk.specs.Parts.{mark_of, parts_in, IsThereWalk};
ghost use Rattle.pdl_pipe_walk.specs.Sized.{IsWalkOf};
ghost use Rattle.pdl_pipe_walk.specs.Frames.{SameRest};
ghost use Rattle.pdl_pipe_walk.specs.MarkLookups.{mark_net as net_in};
ghost use Rattle.pdl_pipe_walk.specs.Steps.{with_var, with_mark};

use crate::nets::{
    AdvisingNet, AskNet, BirthNet, LettingNet, MarkNet, PutNet, ReserveNet, WalkNets,
};
use pdl_build::Builder;
use pdl_form::FlatPipe;
use pdl_kit::{NoMemory, Seq};
use pdl_law_parts::Mark;
use pdl_net::Net;
use pdl_pipe_exprs::Bits;

/// Whether two marks are the same.
pub fn same_mark(a: Mark, b: Mark) -> bool
    ensures { result ≡ is_same a b }
{
    match (a, b) {
        (Mark::Held, Mark::Held) | (Mark::Late, Mark::Late) => true,
        (Mark::Held, Mark::Late) | (Mark::Late, Mark::Held) => false,
    }
}

// The net of whether a location has a mark; `zero` is always 0.
fn mark_net(marks: &[MarkNet], zero: Net, mark: Mark, mem: usize, var: usize) -> Net
    ensures { result ≡ net_in marks.now zero mark mem var }
{
    for x in marks {
        if same_mark(x.mark, mark) && (x.mem == mem && x.var == var) {
            return x.net;
        }
    }
    zero
}

impl WalkNets {
    /// Whether a location has a mark.
    pub fn is_marked(&self, b: &Builder, bits: Bits, mark: Mark, mem: usize, var: usize) -> Net
        requires bits { AreBits b.now bits }
        requires there { IsThereWalk b.now self.now }
        ensures { Means b.now result (mark_of (parts_in b.now self.now).marks mark mem var) }
    {
        let _regs = b.reg_count();
        mark_net(self.marks.as_slice(), bits.zero, mark, mem, var)
    }

    // Another net of a variable.
    fn put_var(&mut self, x: usize, net: Net)
        requires { x < length self.old.vars.items }
        ensures vars { self.new.vars.items ≡ slice_set self.old.vars.items x net }
        ensures marks { self.new.marks ≡ self.old.marks }
        ensures births { self.new.births ≡ self.old.births }
        ensures rest { SameRest self.old self.new }
    {
        self.vars[x] = net;
    }

    // One more mark, before the others.
    fn push_mark(&mut self, entry: MarkNet) -> Result<(), NoMemory>
        ensures marks { OnOk result (self.new.marks.items ≡ entry ∷ self.old.marks.items) }
        ensures vars { self.new.vars ≡ self.old.vars }
        ensures births { self.new.births ≡ self.old.births }
        ensures rest { SameRest self.old self.new }
    {
        self.marks.insert(0, entry)?;
        Ok(())
    }

    /// Where `on` is 1 a variable becomes this.
    pub(crate) fn set(
        &mut self,
        b: &mut Builder,
        pipe: &FlatPipe,
        bits: Bits,
        on: Net,
        x: usize,
        net: Net,
    ) -> Result<(), NoMemory>
        requires walk { IsWalkOf (form pipe.now) b.old self.old }
        requires bits { AreBits b.old bits }
        requires on { HasWidth b.old on 1 }
        requires low { x < length (form pipe.now).widths }
        requires net { HasWidth b.old net (slice_index (form pipe.now).widths x) }
        ensures walk { OnOk result (IsWalkOf (form pipe.now) b.new self.new) }
        ensures parts { OnOk result (parts_in b.new self.new
            ≡ with_var x (signal b.old on) (signal b.old net) (parts_in b.old self.old)) }
        ensures extends { Extends b.old b.new }
    {
        let old = self.variable(b, pipe, x);
        let new = b.mux(on, net, old)?;
        self.put_var(x, new);
        Ok(())
    }

    /// Where `on` is 1 a location gets or loses a mark, as its bit says.
    pub(crate) fn set_mark(
        &mut self,
        b: &mut Builder,
        pipe: &FlatPipe,
        bits: Bits,
        on: Net,
        entry: MarkNet,
    ) -> Result<(), NoMemory>
        requires walk { IsWalkOf (form pipe.now) b.old self.old }
        requires bits { AreBits b.old bits }
        requires on { HasWidth b.old on 1 }
        requires net { HasWidth b.old entry.net 1 }
        ensures walk { OnOk result (IsWalkOf (form pipe.now) b.new self.new) }
        ensures parts { OnOk result (parts_in b.new self.new
            ≡ with_mark entry.mark entry.mem entry.var (signal b.old on) (signal b.old entry.net)
            (parts_in b.old self.old)) }
        ensures extends { Extends b.old b.new }
    {
        let old = self.is_marked(b, bits, entry.mark, entry.mem, entry.var);
        let net = b.mux(on, entry.net, old)?;
        self.push_mark(MarkNet { net, ..entry })
    }

    /// Where `on` is 1 the thread waits until a net is 1.
    pub(crate) fn wait(
        &mut self,
        b: &mut Builder,
        pipe: &FlatPipe,
        bits: Bits,
        on: Net,
        net: Net,
    ) -> Result<(), NoMemory>
        requires walk { IsWalkOf (form pipe.now) b.old self.old }
        requires bits { AreBits b.old bits }
        requires on { HasWidth b.old on 1 }
        requires net { HasWidth b.old net 1 }
        ensures walk { OnOk result (IsWalkOf (form pipe.now) b.new self.new) }
        ensures parts { OnOk result (parts_in b.new self.new
            ≡ record (parts_in b.old self.old) {
              ready = both (parts_in b.old self.old).ready
                  (if_on (signal b.old on) (signal b.old net));
            }) }
        ensures extends { Extends b.old b.new }
    {
        let asked = b.mux(on, net, bits.one)?;
        let ready = bits.both(b, self.ready, asked)?;
        self.ready = ready;
        Ok(())
    }

    /// One more reservation for writing.
    pub(crate) fn push_reserve(&mut self, reserve: ReserveNet) -> Result<(), NoMemory>
        ensures { OnOk result (self.new
            ≡ record self.old { reserves = self.old.reserves ++ reserve ∷ [] }) }
    {
        self.reserves.push(reserve)
    }

    /// One more write.
    pub(crate) fn push_put(&mut self, put: PutNet) -> Result<(), NoMemory>
        ensures { OnOk result (self.new ≡ record self.old { puts = self.old.puts ++ put ∷ [] }) }
    {
        self.puts.push(put)
    }

    /// One more request of a delayed memory.
    pub(crate) fn push_ask(&mut self, ask: AskNet) -> Result<(), NoMemory>
        ensures { OnOk result (self.new ≡ record self.old { asks = self.old.asks ++ ask ∷ [] }) }
    {
        self.asks.push(ask)
    }

    /// One more write of an advisory memory.
    pub(crate) fn push_advising(&mut self, advising: AdvisingNet) -> Result<(), NoMemory>
        ensures { OnOk result (self.new
            ≡ record self.old { advises = self.old.advises ++ advising ∷ [] }) }
    {
        self.advises.push(advising)
    }

    /// One more release of a write reservation.
    pub(crate) fn push_letting(&mut self, mem: usize, on: Net) -> Result<(), NoMemory>
        ensures { OnOk result (self.new
            ≡ record self.old {
              lettings = self.old.lettings ++ record {
                mem = mem;
                on = on;
              } ∷ [];
            }) }
    {
        self.lettings.push(LettingNet { mem, on })
    }

    /// One more call.
    pub(crate) fn push_birth(&mut self, on: Net, args: Seq<Net>) -> Result<(), NoMemory>
        ensures births { OnOk result (self.new.births.items
            ≡ record { on = on; args = args } ∷ self.old.births.items) }
        ensures vars { self.new.vars ≡ self.old.vars }
        ensures marks { self.new.marks ≡ self.old.marks }
        ensures rest { SameRest self.old self.new }
    {
        self.births.insert(0, BirthNet { on, args })?;
        Ok(())
    }
}
