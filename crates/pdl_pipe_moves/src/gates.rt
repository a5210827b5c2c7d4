// Whether what stands beside the stages lets a thread move.
ghost use Rattle.std.specs.Prelude.{◌≡◌, ◌<◌, IfOk, map};
ghost use Rattle.pdl_form.specs.FormView.{form};
ghost use Rattle.pdl_semantics.specs.Stages.{verify_stage};
ghost use Rattle.pdl_semantics.specs.Updates.{squash_stages};
ghost use Rattle.pdl_net.specs.Growth.{Extends};
ghost use Rattle.pdl_net.specs.Meaning.{Means, signal};
ghost use Rattle.pdl_pipe_exprs.specs.Conditions.{AreBits};
ghost use Rattle.pdl_pipe_exprs.specs.Nets.{signals_in, signal_at};
ghost use Rattle.pdl_pipe_walk.specs.Parts.{ask_in};
ghost use Rattle.pdl_law_sides.specs.Sides.{unsquashed as unsquashed_signal, barrier_open as barrier_signal};
ghost use Rattle.pdl_pipe_answers.specs.Ports.{IsBit, IsBitFor};
ghost use Rattle.pdl_pipe_beside.specs.Squashed.{squashes_in, HasSquashes};
ghost use Rattle.pdl_pipe_moves.specs.Gates.{kept_by, opens_by, IsAsked};
ghost use Rattle.pdl_word.specs.Each.{Each};

use pdl_build::Builder;
use pdl_form::FlatPipe;
use pdl_kit::NoMemory;
use pdl_net::Net;
use pdl_pipe_answers::both_bits;
use pdl_pipe_beside::Squashes;
use pdl_pipe_beside::asks::ask_at;
use pdl_pipe_exprs::Bits;
use pdl_pipe_exprs::exprs::variable;
use pdl_pipe_walk::AskNet;

// Where stage k is before a stage that squashes so it moves only where that doesn't squash; else by this.
fn unsquashed_by(
    b: &mut Builder,
    bits: Bits,
    k: usize,
    stage: Option<usize>,
    squash: Net,
    rest: Net,
) -> Result<Net, NoMemory>
    requires bits { AreBits b.old bits }
    requires squash { IsBit b.old squash }
    requires rest { IsBit b.old rest }
    ensures means { IfOk result (λ y.
        Means b.new y (kept_by stage k (signal b.old squash) (signal b.old rest))) }
    ensures bit { IfOk result (λ y. IsBit b.new y) }
    ensures extends { Extends b.old b.new }
    ensures regs { b.new.regs ≡ b.old.regs }
{
    match stage {
        Some(z) if k < z => {
            let net = b.mux(squash, bits.zero, rest)?;
            Ok(net)
        }
        _ => Ok(rest),
    }
}

/// Whether no squash keeps the thread of stage k where it is: a stage before one that may squash moves only where that doesn't.
pub fn unsquashed(
    b: &mut Builder,
    pipe: &FlatPipe,
    bits: Bits,
    k: usize,
    squashes: Squashes,
) -> Result<Net, NoMemory>
    requires bits { AreBits b.old bits }
    requires squashes { HasSquashes b.old squashes }
    ensures on { IfOk result (λ y. IsBitFor b.new y
        (unsquashed_signal (squash_stages (form pipe.now).pipe.stmts) k
        (squashes_in b.old (form pipe.now).pipe squashes))) }
    ensures extends { Extends b.old b.new }
    ensures regs { b.new.regs ≡ b.old.regs }
{
    let rest = unsquashed_by(b, bits, k, pipe.update_stage(), squashes.update, bits.one)?;
    let net = unsquashed_by(b, bits, k, pipe.verify_stage(), squashes.verify, rest)?;
    Ok(net)
}

/// Whether a barrier lets the thread of stage k pass: where it meets one, no later stage up to the one that verifies holds a thread.
pub fn barrier_open(
    b: &mut Builder,
    pipe: &FlatPipe,
    bits: Bits,
    k: usize,
    barrier: Net,
    clear: Net,
) -> Result<Net, NoMemory>
    requires bits { AreBits b.old bits }
    requires barrier { IsBit b.old barrier }
    requires clear { IsBit b.old clear }
    ensures on { IfOk result (λ y. IsBitFor b.new y
        (barrier_signal (verify_stage (form pipe.now).pipe.stmts) k (signal b.old barrier)
        (signal b.old clear))) }
    ensures extends { Extends b.old b.new }
    ensures regs { b.new.regs ≡ b.old.regs }
{
    match pipe.verify_stage() {
        Some(v) if k < v => {
            let net = b.mux(barrier, clear, bits.one)?;
            Ok(net)
        }
        _ => Ok(bits.one),
    }
}

/// Whether the port of each delayed read on the thread's path is free; `frees` tells of each memory whether its port is.
pub fn ports_open(
    b: &mut Builder,
    bits: Bits,
    asks: &[AskNet],
    frees: &[Net],
) -> Result<Net, NoMemory>
    requires bits { AreBits b.old bits }
    requires asks { Each (IsAsked b.old frees.now) asks.now }
    requires frees { Each (IsBit b.old) frees.now }
    ensures on { IfOk result (λ y. IsBitFor b.new y
        (opens_by (signal_at (signals_in b.old frees.now)) (map (ask_in b.old) asks.now))) }
    ensures extends { Extends b.old b.new }
    ensures regs { b.new.regs ≡ b.old.regs }
{
    let mut net = bits.one;
    for i in 0..asks.len() {
        let ask = ask_at(asks, asks.len() - 1 - i);
        let free = variable(b, frees, ask.mem);
        let passes = b.mux(ask.on, free, bits.one)?;
        net = both_bits(b, bits, passes, net)?;
    }
    Ok(net)
}
