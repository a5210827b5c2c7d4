// What the stages ask of delayed memories.
ghost use Rattle.std.specs.Prelude.{◌≡◌, ◌<◌, IfOk, map, length, slice_index_or};
ghost use Rattle.pdl_form.specs.View.{next_view};
ghost use Rattle.pdl_form_types.specs.Stmts.{IsFork};
ghost use Rattle.pdl_net.specs.Meaning.{Means, signal};
ghost use Rattle.pdl_net.specs.HasWidth.{HasWidth};
ghost use Rattle.pdl_net.specs.Growth.{Extends};
ghost use Rattle.pdl_pipe_exprs.specs.Conditions.{AreBits};
ghost use Rattle.pdl_pipe_exprs.specs.Nets.{signals_in, widths_of};
ghost use Rattle.pdl_law_sides.specs.Sides.{asks_memory as memory_asked, goes_to_place as place_signal};
ghost use Rattle.pdl_pipe_walk.specs.Parts.{ask_in, walk_in, IsThereWalk};
ghost use Rattle.pdl_word.specs.Each.{Each};
ghost use Rattle.pdl_pipe_beside.specs.Steps.{ask_or as ask_signal, IsAskNet};

use pdl_build::Builder;
use pdl_form::Next;
use pdl_kit::NoMemory;
use pdl_net::Net;
use pdl_pipe_exprs::Bits;
use pdl_pipe_exprs::exprs::variable;
use pdl_pipe_walk::{AskNet, WalkNets};

/// The request of a number.
pub fn ask_at(asks: &[AskNet], i: usize) -> AskNet
    requires { i < length asks.now }
    ensures { result ≡ slice_index_or asks.now i result }
{
    asks[i]
}

// Whether a thread that moves makes this request of a memory, or else one of the rest.
fn ask_or(
    b: &mut Builder,
    bits: Bits,
    moves: Net,
    ask: AskNet,
    m: usize,
    rest: Net,
) -> Result<Net, NoMemory>
    requires bits { AreBits b.old bits }
    requires moves { HasWidth b.old moves 1 }
    requires ask { IsAskNet b.old ask }
    requires rest { HasWidth b.old rest 1 }
    ensures means { IfOk result (λ y.
        Means b.new y (ask_signal m (signal b.old moves) (ask_in b.old ask) (signal b.old rest))) }
    ensures one { IfOk result (λ y. (signal b.new y).width ≡ 1) }
    ensures extends { Extends b.old b.new }
    ensures regs { b.new.regs ≡ b.old.regs }
{
    if ask.mem != m {
        return Ok(rest);
    }
    let asks = bits.both(b, moves, ask.on)?;
    b.mux(asks, bits.one, rest)
}

// Whether a thread moves that asks a memory.
pub(crate) fn asks_memory(
    b: &mut Builder,
    bits: Bits,
    asks: &[AskNet],
    moves: Net,
    m: usize,
) -> Result<Net, NoMemory>
    requires bits { AreBits b.old bits }
    requires asks { Each (IsAskNet b.old) asks.now }
    requires moves { HasWidth b.old moves 1 }
    ensures means { IfOk result (λ y.
        Means b.new y (memory_asked m (signal b.old moves) (map (ask_in b.old) asks.now))) }
    ensures one { IfOk result (λ y. (signal b.new y).width ≡ 1) }
    ensures extends { Extends b.old b.new }
    ensures regs { b.new.regs ≡ b.old.regs }
{
    let count = asks.len();
    let mut net = bits.zero;
    for i in 0..count {
        net = ask_or(b, bits, moves, ask_at(asks, count - 1 - i), m, net)?;
    }
    Ok(net)
}

// Whether the thread of a stage that ends so goes to the place of this number.
pub(crate) fn goes_to_place(
    b: &mut Builder,
    bits: Bits,
    ended: &WalkNets,
    next: Next,
    i: usize,
) -> Result<Net, NoMemory>
    requires bits { AreBits b.old bits }
    requires there { IsThereWalk b.old ended.now }
    requires fork { IsFork (widths_of (signals_in b.old ended.now.vars.items)) (next_view next) }
    ensures means { IfOk result (λ y.
        Means b.new y (place_signal (next_view next) i (walk_in b.old ended.now))) }
    ensures one { IfOk result (λ y. (signal b.new y).width ≡ 1) }
    ensures extends { Extends b.old b.new }
    ensures regs { b.new.regs ≡ b.old.regs }
{
    match next {
        Next::Ends => Ok(bits.zero),
        Next::Goes(_) => Ok(if i == 0 { bits.one } else { bits.zero }),
        Next::Forks { x, .. } => {
            let choice = variable(b, ended.vars.as_slice(), x);
            if i == 0 {
                b.mux(choice, bits.one, bits.zero)
            } else {
                b.mux(choice, bits.zero, bits.one)
            }
        }
    }
}
