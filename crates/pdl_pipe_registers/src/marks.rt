// The marks of locations with which a stage begins.
ghost use Rattle.std.specs.Prelude.{◌≡◌, ◌<◌, ◌≤◌, IfOk, OnOk, length, slice_index_or};
ghost use Rattle.pdl_form.specs.FormView.{form};
ghost use Rattle.pdl_net.specs.Growth.{Extends};
ghost use Rattle.pdl_pipe_exprs.specs.Nets.{signals_in};
ghost use Rattle.pdl_word.specs.Each.{Each};
ghost use Rattle.pdl_pipe_registers.specs.Stages.{end_of, IsFrame, AreOwn};
ghost use Rattle.pdl_pipe_registers.specs.Begun.{is_listed as is_listed_in, earlier_views, earlier_count, IsShared, IsEarlier, IsLonger, AreStillListed, AreMarksBegun, HasAllMarks, AddsMark};

use crate::entry::begin_item;
use crate::nets::{Earlier, Item, Shared, StageRegs};
use crate::registers::stage_at;
use pdl_build::Builder;
use pdl_form::FlatPipe;
use pdl_kit::{NoMemory, Seq};
use pdl_law_parts::Mark;
use pdl_pipe_lives::mark_from;
use pdl_pipe_walk::MarkNet;
use pdl_pipe_walk::update::same_mark;
use std::alloc::Global;

// A mark of a location, by its memory and the variable of its address.
#[derive(Clone, Copy)]
struct MarkIndex {
    mark: Mark,
    mem: usize,
    var: usize,
}

// Whether a mark is among these.
fn is_listed(marks: &[MarkNet], at: MarkIndex) -> bool
    ensures { result ≡ is_listed_in marks.now at.mark at.mem at.var }
{
    for x in marks {
        if same_mark(x.mark, at.mark) && (x.mem == at.mem && x.var == at.var) {
            return true;
        }
    }
    false
}

// A mark that may come here, once, where a statement from here on asks for it.
fn push_mark(
    b: &mut Builder,
    pipe: &FlatPipe,
    shared: &Shared<'_>,
    earlier: &Earlier<'_>,
    regs: &mut StageRegs,
    marks: &mut Seq<MarkNet>,
    at: MarkIndex,
) -> Result<(), NoMemory>
    requires shared { IsShared b.old (form pipe.now) shared.now }
    requires earlier { IsEarlier b.old (form pipe.now)
        (signals_in b.old shared.now.next) earlier.now }
    requires after { 0 < earlier_count earlier.now }
    requires last { end_of regs.old ≡ length b.old.regs }
    ensures adds { OnOk result (AddsMark b.new (form pipe.now)
        (signals_in b.old shared.now.next) (earlier_views b.old earlier.now)
        (earlier_count earlier.now) at.mark at.mem at.var regs.old marks.old regs.new
        marks.new) }
    ensures last { OnOk result (end_of regs.new ≡ length b.new.regs) }
    ensures extends { Extends b.old b.new }
{
    let stage = earlier.stages.len();
    let MarkIndex { mark, mem, var } = at;
    if is_listed(marks.as_slice(), at) || !mark_from(pipe, stage, mark, mem, var) {
        return Ok(());
    }
    let item = Item::Mark { mark, mem, var };
    let net = begin_item(b, pipe, shared, earlier, regs, item, 1)?;
    marks.push(MarkNet {
        mark,
        mem,
        var,
        net,
    })?;
    Ok(())
}

// The mark of a number.
fn entry_of(marks: &[MarkNet], i: usize) -> MarkNet
    requires { i < length marks.now }
    ensures { result ≡ slice_index_or marks.now i result }
{
    marks[i]
}

// The marks with which a thread may come out of stage j.
fn push_marks(
    b: &mut Builder,
    pipe: &FlatPipe,
    shared: &Shared<'_>,
    earlier: &Earlier<'_>,
    regs: &mut StageRegs,
    marks: &mut Seq<MarkNet>,
    j: usize,
) -> Result<(), NoMemory>
    requires shared { IsShared b.old (form pipe.now) shared.now }
    requires earlier { IsEarlier b.old (form pipe.now)
        (signals_in b.old shared.now.next) earlier.now }
    requires low { j < earlier_count earlier.now }
    requires frame { IsFrame b.old (form pipe.now) (signals_in b.old shared.now.next)
        (earlier_count earlier.now) regs.old }
    requires own { AreOwn (form pipe.now) (earlier_count earlier.now) regs.old }
    requires begun { AreMarksBegun b.old (form pipe.now) (signals_in b.old shared.now.next)
        (earlier_views b.old earlier.now) (earlier_count earlier.now) regs.old marks.old }
    ensures frame { OnOk result (IsFrame b.new (form pipe.now)
        (signals_in b.old shared.now.next) (earlier_count earlier.now) regs.new) }
    ensures own { OnOk result (AreOwn (form pipe.now) (earlier_count earlier.now) regs.new) }
    ensures longer { OnOk result (IsLonger regs.old regs.new) }
    ensures begun { OnOk result (AreMarksBegun b.new (form pipe.now)
        (signals_in b.old shared.now.next) (earlier_views b.old earlier.now)
        (earlier_count earlier.now) regs.new marks.new) }
    ensures more { OnOk result (AreStillListed marks.old marks.new) }
    ensures whole { OnOk result (HasAllMarks (form pipe.now).pipe (earlier_count earlier.now)
        (earlier_views b.old earlier.now j) marks.new) }
    ensures extends { Extends b.old b.new }
{
    let from = stage_at(earlier, j);
    for i in 0..from.end.marks.len() {
        let x = entry_of(from.end.marks.as_slice(), i);
        let at = MarkIndex {
            mark: x.mark,
            mem: x.mem,
            var: x.var,
        };
        push_mark(b, pipe, shared, earlier, regs, marks, at)?;
    }
    Ok(())
}

/// The marks with which a thread may come into a stage.
pub(crate) fn begin_marks(
    alloc: Global,
    b: &mut Builder,
    pipe: &FlatPipe,
    shared: &Shared<'_>,
    earlier: &Earlier<'_>,
    regs: &mut StageRegs,
) -> Result<Seq<MarkNet>, NoMemory>
    requires shared { IsShared b.old (form pipe.now) shared.now }
    requires earlier { IsEarlier b.old (form pipe.now)
        (signals_in b.old shared.now.next) earlier.now }
    requires frame { IsFrame b.old (form pipe.now) (signals_in b.old shared.now.next)
        (earlier_count earlier.now) regs.old }
    requires own { AreOwn (form pipe.now) (earlier_count earlier.now) regs.old }
    ensures frame { OnOk result (IsFrame b.new (form pipe.now)
        (signals_in b.old shared.now.next) (earlier_count earlier.now) regs.new) }
    ensures own { OnOk result (AreOwn (form pipe.now) (earlier_count earlier.now) regs.new) }
    ensures longer { OnOk result (IsLonger regs.old regs.new) }
    ensures begun { IfOk result (λ xs. AreMarksBegun b.new (form pipe.now)
        (signals_in b.old shared.now.next) (earlier_views b.old earlier.now)
        (earlier_count earlier.now) regs.new xs) }
    ensures whole { IfOk result (λ xs. Each (λ j.
        HasAllMarks (form pipe.now).pipe (earlier_count earlier.now)
        (earlier_views b.old earlier.now j) xs) earlier.now.ways.now) }
    ensures extends { Extends b.old b.new }
{
    let mut marks = Seq::new(alloc);
    for j in earlier.ways {
        push_marks(b, pipe, shared, earlier, regs, &mut marks, *j)?;
    }
    Ok(marks)
}
