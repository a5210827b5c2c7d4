// Whose turn it is, by the way on.
ghost use Rattle.std.specs.Prelude.{◌≡◌, ◌<◌, IfOk, length};
ghost use Rattle.pdl_semantics.specs.Stages.{stage_at};
ghost use Rattle.pdl_net.specs.Growth.{Extends};
ghost use Rattle.pdl_law_parts.specs.Views.{way_on as way_signal};
ghost use Rattle.pdl_pipe_answers.specs.Ports.{IsBitFor};
ghost use Rattle.pdl_pipe_nexts.specs.Lines.{line_pipe, line_views, IsLineIn};
ghost use Rattle.pdl_pipe_moves.specs.Inside.{LeadsInside};
ghost use Rattle.pdl_pipe_moves.specs.Gates.{turn_in, HasTurns};

use crate::turns::turn;
use pdl_build::Builder;
use pdl_form::Next;
use pdl_kit::NoMemory;
use pdl_net::Net;
use pdl_order::OrderRegs;
use pdl_pipe_answers::next_of;
use pdl_pipe_exprs::exprs::variable;
use pdl_pipe_nexts::StageLine;
use pdl_pipe_nexts::line::stage_of;

/// Whether it is the turn of the thread of stage k to go where it goes next.
pub fn way_turn(
    b: &mut Builder,
    line: &StageLine<'_>,
    orders: &[Option<OrderRegs>],
    k: usize,
) -> Result<Net, NoMemory>
    requires line { IsLineIn b.old line.now }
    requires inside { LeadsInside (line_pipe line.now) }
    requires turns { HasTurns b.old (line_pipe line.now) orders.now }
    requires low { k < length (line_pipe line.now).stages }
    ensures on { IfOk result
        (λ y. IsBitFor b.new y (way_signal (stage_at (line_pipe line.now) k).next
        (turn_in b.old (line_pipe line.now) orders.now k) (line_views b.old line.now k).ended)) }
    ensures extends { Extends b.old b.new }
    ensures regs { b.new.regs ≡ b.old.regs }
{
    let bits = line.shared.bits;
    match next_of(line.pipe, k) {
        Next::Ends => Ok(bits.one),
        Next::Goes(to) => {
            let net = turn(b, line.pipe, bits, orders, k, to)?;
            Ok(net)
        }
        Next::Forks { x, first, second } => {
            let s = stage_of(line, k);
            let choice = variable(b, s.end.vars.as_slice(), x);
            let yes = turn(b, line.pipe, bits, orders, k, first)?;
            let no = turn(b, line.pipe, bits, orders, k, second)?;
            let net = b.mux(choice, yes, no)?;
            Ok(net)
        }
    }
}
