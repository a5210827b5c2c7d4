// What the calls of all stages bring into the first one.
ghost use Rattle.std.specs.Prelude.{◌≡◌, ◌<◌, ◌≤◌, [], IfOk, length, map};
ghost use Rattle.pdl_net.specs.Meaning.{Means, signal};
ghost use Rattle.pdl_net.specs.HasWidth.{HasWidth};
ghost use Rattle.pdl_net.specs.Growth.{Extends};
ghost use Rattle.pdl_pipe_exprs.specs.Nets.{signals_in};
ghost use Rattle.pdl_pipe_exprs.specs.Conditions.{AreBits};
ghost use Rattle.pdl_form.specs.FormView.{form};
ghost use Rattle.pdl_law_parts.specs.Views.{new_by, first_coming};
ghost use Rattle.pdl_pipe_walk.specs.Parts.{birth_in};
ghost use Rattle.pdl_pipe_nexts.specs.Lines.{line_form, line_pipe, IsLineIn};
ghost use Rattle.pdl_pipe_nexts.specs.Brings.{brought_signal, brought_new, brought_width, new_in, IsArgument, IsBirth};
ghost use Rattle.pdl_word.specs.Each.{Each};

use crate::line::{StageLine, stage_of};
use pdl_build::Builder;
use pdl_form::FlatPipe;
use pdl_kit::NoMemory;
use pdl_net::Net;
use pdl_pipe_exprs::Bits;
use pdl_pipe_exprs::exprs::variable;
use pdl_pipe_registers::Item;
use pdl_pipe_walk::BirthNet;

// What a call brings: that the new thread is there, or an argument.
fn brought(b: &Builder, pipe: &FlatPipe, bits: Bits, birth: &BirthNet, what: Option<Item>) -> Net
    requires bits { AreBits b.now bits }
    requires birth { IsBirth b.now (form pipe.now) birth.now }
    requires what { IsArgument (form pipe.now).pipe what }
    requires params { length (form pipe.now).pipe.start ≤ length (form pipe.now).widths }
    ensures means { Means b.now result (brought_new what (signals_in b.now birth.now.args)) }
    ensures wide { (signal b.now result).width ≡ brought_width (form pipe.now) [] what }
{
    let _params = pipe.start().len();
    match what {
        None => bits.one,
        Some(Item::Var(x)) => variable(b, birth.args.as_slice(), x),
        Some(_) => unreachable!(),
    }
}

// What the first of the calls of a stage that is made brings, else `rest`; `moves` tells whether the stage's thread moves.
fn picked_of(
    b: &mut Builder,
    pipe: &FlatPipe,
    bits: Bits,
    births: &[BirthNet],
    moves: Net,
    what: Option<Item>,
    rest: Net,
) -> Result<Net, NoMemory>
    requires bits { AreBits b.old bits }
    requires births { Each (IsBirth b.old (form pipe.now)) births.now }
    requires what { IsArgument (form pipe.now).pipe what }
    requires params { length (form pipe.now).pipe.start ≤ length (form pipe.now).widths }
    requires moves { HasWidth b.old moves 1 }
    requires rest { HasWidth b.old rest (brought_width (form pipe.now) [] what) }
    ensures means { IfOk result (λ x.
        Means b.new x (first_coming (brought_signal what)
        (map (new_by (signal b.old moves)) (map (birth_in b.old) births.now))
        (signal b.old rest))) }
    ensures wide { IfOk result (λ x. (signal b.new x).width ≡ (signal b.old rest).width) }
    ensures extends { Extends b.old b.new }
    ensures regs { b.new.regs ≡ b.old.regs }
{
    let mut net = rest;
    for i in 0..births.len() {
        let birth = &births[births.len() - 1 - i];
        let comes = bits.both(b, moves, birth.on)?;
        let value = brought(b, pipe, bits, birth, what);
        net = b.mux(comes, value, net)?;
    }
    Ok(net)
}

/// What the first of the calls of all stages that is made brings, else `rest`.
pub(crate) fn new_coming(
    b: &mut Builder,
    line: &StageLine<'_>,
    what: Option<Item>,
    rest: Net,
) -> Result<Net, NoMemory>
    requires line { IsLineIn b.old line.now }
    requires what { IsArgument (line_pipe line.now) what }
    requires rest { HasWidth b.old rest (brought_width (line_form line.now) [] what) }
    ensures means { IfOk result (λ x. Means b.new x (first_coming (brought_signal what)
        (new_in b.old line.now) (signal b.old rest))) }
    ensures wide { IfOk result (λ x. (signal b.new x).width ≡ (signal b.old rest).width) }
    ensures extends { Extends b.old b.new }
    ensures regs { b.new.regs ≡ b.old.regs }
{
    let bits = line.shared.bits;
    let mut net = rest;
    for i in 0..line.stages.len() {
        let k = line.stages.len() - 1 - i;
        let s = stage_of(line, k);
        let moves = variable(b, line.moves, k);
        net = picked_of(
            b,
            line.pipe,
            bits,
            s.end.births.as_slice(),
            moves,
            what,
            net,
        )?;
    }
    Ok(net)
}
