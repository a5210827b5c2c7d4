// The squash of a stage: whether it happens, and whom it removes.
ghost use Rattle.std.specs.Prelude.{◌≡◌, ◌<◌, ◌≤◌, IfOk, length};
ghost use Rattle.pdl_net.specs.Growth.{Extends};
ghost use Rattle.pdl_net.specs.Meaning.{Means, signal};
ghost use Rattle.pdl_squash.specs.Laws.{net_at, AreBits as AreSquashBits, SquashLaw, signal_at as squash_net};
ghost use Rattle.pdl_pipe_answers.specs.Ports.{IsBit};
ghost use Rattle.pdl_pipe_exprs.specs.Conditions.{AreBits};
ghost use Rattle.pdl_pipe_exprs.specs.Nets.{signals_in, signal_at};
ghost use Rattle.pdl_pipe_nexts.specs.Lines.{line_pipe, IsLineIn};
ghost use Rattle.pdl_pipe_moves.specs.StageSquashes.{squash_signals_by, joined_signal, AreFilled, ArePadded, AreJoined, HasValids, IsSquash};
ghost use Rattle.pdl_word.specs.Each.{Each};

use pdl_build::Builder;
use pdl_kit::{NoMemory, Seq};
use pdl_net::Net;
use pdl_pipe_exprs::Bits;
use pdl_pipe_nexts::StageLine;
use pdl_pipe_nexts::line::stage_of;
use pdl_squash::{SquashNets, SquashPorts, emit_squash};
use std::alloc::Global;

/// Of a stage that squashes: whether it does, which threads that removes, and of which stages no later one up to it holds a thread; 1 bit each.
#[derive(Drop)]
pub struct StageSquash {
    pub happens: Net,
    pub removed: Vec<Net>,
    pub clear: Vec<Net>,
}

/// A net that is 1 bit, for each stage.
pub fn filled(alloc: Global, net: Net, count: usize) -> Result<Vec<Net>, NoMemory>
    ensures { IfOk result (λ xs. AreFilled net count xs.items) }
{
    let nets = vec![in alloc; net; count]?;
    Ok(nets)
}

// These nets, and after them one that fills up.
fn padded(alloc: Global, nets: &Seq<Net>, fill: Net, count: usize) -> Result<Vec<Net>, NoMemory>
    requires { length nets.now ≤ count }
    ensures { IfOk result (λ xs. ArePadded nets.now fill count xs.items) }
{
    let mut list = Vec::new(alloc);
    for k in 0..count {
        let net = if k < nets.len() {
            nets.as_slice()[k]
        } else {
            fill
        };
        list.push(net)?;
    }
    Ok(list)
}

/// A net, by its place.
pub fn net_of(nets: &[Net], k: usize) -> Net
    requires { k < length nets.now }
    ensures { result ≡ net_at nets.now k }
{
    nets[k]
}

// Whether each stage holds a thread.
fn valids(alloc: Global, line: &StageLine<'_>) -> Result<Seq<Net>, NoMemory>
    ensures { IfOk result (λ xs. HasValids line.now xs) }
{
    let mut nets = Seq::new(alloc);
    for k in 0..line.stages.len() {
        nets.push(Net::Reg(stage_of(line, k).regs.valid))?;
    }
    Ok(nets)
}

// The squash of stage v, whose thread moves so.
fn squash_by(
    alloc: Global,
    b: &mut Builder,
    line: &StageLine<'_>,
    v: usize,
    moves: Net,
) -> Result<SquashNets, NoMemory>
    requires line { IsLineIn b.old line.now }
    requires low { v < length (line_pipe line.now).stages }
    requires moves { IsBit b.old moves }
    ensures law { IfOk result (λ n. SquashLaw
        (squash_signals_by b.old line.now v (signal b.old moves)) (signal b.new n.squash)
        (squash_net b.new n.removed) (squash_net b.new n.clear)) }
    ensures squash { IfOk result (λ n. IsBit b.new n.squash) }
    ensures removed { IfOk result (λ n. AreSquashBits b.new n.removed v) }
    ensures clear { IfOk result (λ n. AreSquashBits b.new n.clear v) }
    ensures extends { Extends b.old b.new }
{
    let valid = valids(alloc, line)?;
    let ports = SquashPorts {
        valid,
        stage: v,
        moves,
        fails: stage_of(line, v).end.fails,
    };
    let nets = emit_squash(alloc, b, &ports)?;
    Ok(nets)
}

/// The squash of stage v, whose thread moves so, with a net of each stage.
pub fn stage_squash(
    alloc: Global,
    b: &mut Builder,
    line: &StageLine<'_>,
    v: usize,
    moves: Net,
) -> Result<StageSquash, NoMemory>
    requires line { IsLineIn b.old line.now }
    requires low { v < length (line_pipe line.now).stages }
    requires moves { IsBit b.old moves }
    ensures made { IfOk result (λ z. IsSquash b.new line.now v (signal b.old moves) z) }
    ensures extends { Extends b.old b.new }
{
    let count = line.stages.len();
    let zero = line.shared.bits.zero;
    let nets = squash_by(alloc, b, line, v, moves)?;
    let removed = padded(alloc, &nets.removed, zero, count)?;
    let clear = padded(alloc, &nets.clear, zero, count)?;
    Ok(StageSquash {
        happens: nets.squash,
        removed,
        clear,
    })
}

// Whether either of two squashes removes the thread of stage k; the second one does so before stage u alone.
fn joined_at(
    b: &mut Builder,
    bits: Bits,
    u: usize,
    k: usize,
    first: Net,
    second: Net,
) -> Result<Net, NoMemory>
    requires bits { AreBits b.old bits }
    requires first { IsBit b.old first }
    requires second { IsBit b.old second }
    ensures means { IfOk result (λ x.
        Means b.new x (joined_signal u k (signal b.old first) (signal b.old second))) }
    ensures bit { IfOk result (λ x. IsBit b.new x) }
    ensures extends { Extends b.old b.new }
{
    if k < u {
        let net = b.mux(first, bits.one, second)?;
        Ok(net)
    } else {
        Ok(first)
    }
}

/// Whom either of two squashes removes; the second one does so before stage u alone.
pub fn joined(
    alloc: Global,
    b: &mut Builder,
    bits: Bits,
    first: &[Net],
    second: &[Net],
    u: usize,
) -> Result<Vec<Net>, NoMemory>
    requires bits { AreBits b.old bits }
    requires first { Each (IsBit b.old) first.now }
    requires second { Each (IsBit b.old) second.now }
    requires count { length second.now ≡ length first.now }
    ensures bits { IfOk result (λ xs. Each (IsBit b.new) xs.items) }
    ensures joined { IfOk result (λ xs. AreJoined (signal_at (signals_in b.old first.now))
        (signal_at (signals_in b.old second.now)) u (length first.now) (signals_in b.new xs.items)) }
    ensures extends { Extends b.old b.new }
{
    let mut list = Vec::new(alloc);
    for k in 0..first.len() {
        let x = net_of(first, k);
        let y = net_of(second, k);
        let net = joined_at(b, bits, u, k, x, y)?;
        list.push(net)?;
    }
    Ok(list)
}
