// Which threads move.
ghost use Rattle.std.specs.Prelude.{◌≡◌, ◌<◌, ◌≤◌, IfOk, length};
ghost use Rattle.pdl_semantics.specs.Stages.{stage_at};
ghost use Rattle.pdl_net.specs.Growth.{Extends};
ghost use Rattle.pdl_net.specs.Meaning.{Means, signal};
ghost use Rattle.pdl_law_parts.specs.Views.{free as free_signal, way_on as way_signal, moves_where};
ghost use Rattle.pdl_pipe_answers.specs.Ports.{IsBit, IsBitFor};
ghost use Rattle.pdl_pipe_nexts.specs.Lines.{line_pipe, line_views, line_moves, IsLineIn};
ghost use Rattle.pdl_pipe_moves.specs.Inside.{LeadsInside};

use pdl_build::Builder;
use pdl_form::Next;
use pdl_kit::NoMemory;
use pdl_net::Net;
use pdl_pipe_answers::{both_bits, next_of};
use pdl_pipe_exprs::exprs::variable;
use pdl_pipe_nexts::StageLine;
use pdl_pipe_nexts::line::stage_of;

// Whether stage q is free for a thread: it is empty, or its own moves.
fn free(b: &mut Builder, line: &StageLine<'_>, q: usize) -> Result<Net, NoMemory>
    requires line { IsLineIn b.old line.now }
    requires low { q < length (line_pipe line.now).stages }
    ensures means { IfOk result (λ y. Means b.new y
        (free_signal (line_views b.old line.now) (line_moves b.old line.now) q)) }
    ensures one { IfOk result (λ y. (signal b.new y).width ≡ 1) }
    ensures extends { Extends b.old b.new }
    ensures regs { b.new.regs ≡ b.old.regs }
{
    let s = stage_of(line, q);
    let moves = variable(b, line.moves, q);
    let net = b.mux(Net::Reg(s.regs.valid), moves, line.shared.bits.one)?;
    Ok(net)
}

// Whether the stage to which the thread of stage k goes next is free; after the last one all is.
fn way_on(b: &mut Builder, line: &StageLine<'_>, k: usize) -> Result<Net, NoMemory>
    requires line { IsLineIn b.old line.now }
    requires inside { LeadsInside (line_pipe line.now) }
    requires low { k < length (line_pipe line.now).stages }
    ensures means { IfOk result
        (λ y. Means b.new y (way_signal (stage_at (line_pipe line.now) k).next
        (free_signal (line_views b.old line.now) (line_moves b.old line.now))
        (line_views b.old line.now k).ended)) }
    ensures one { IfOk result (λ y. (signal b.new y).width ≡ 1) }
    ensures extends { Extends b.old b.new }
    ensures regs { b.new.regs ≡ b.old.regs }
{
    match next_of(line.pipe, k) {
        Next::Ends => Ok(line.shared.bits.one),
        Next::Goes(to) => {
            let net = free(b, line, to)?;
            Ok(net)
        }
        Next::Forks { x, first, second } => {
            let s = stage_of(line, k);
            let choice = variable(b, s.end.vars.as_slice(), x);
            let yes = free(b, line, first)?;
            let no = free(b, line, second)?;
            let net = b.mux(choice, yes, no)?;
            Ok(net)
        }
    }
}

/// Whether the thread of stage k moves, 1 bit: it is there, the locks let it, its gate is open, and its next stage is free.
pub fn stage_moves(
    b: &mut Builder,
    line: &StageLine<'_>,
    k: usize,
    gate: Net,
) -> Result<Net, NoMemory>
    requires line { IsLineIn b.old line.now }
    requires inside { LeadsInside (line_pipe line.now) }
    requires low { k < length (line_pipe line.now).stages }
    requires gate { IsBit b.old gate }
    ensures moves { IfOk result (λ y. IsBitFor b.new y (moves_where (line_pipe line.now)
        (line_views b.old line.now) (λ j. signal b.old gate) (line_moves b.old line.now) k)) }
    ensures extends { Extends b.old b.new }
    ensures regs { b.new.regs ≡ b.old.regs }
{
    let bits = line.shared.bits;
    let s = stage_of(line, k);
    let way = way_on(b, line, k)?;
    let open = both_bits(b, bits, gate, way)?;
    let ready = both_bits(b, bits, s.end.ready, open)?;
    let moves = both_bits(b, bits, Net::Reg(s.regs.valid), ready)?;
    Ok(moves)
}
