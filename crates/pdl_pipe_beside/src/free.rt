// Whether ports are free.
ghost use Rattle.std.specs.Prelude.{◌≡◌, ◌<◌, ℕ, IfOk, length, slice_index};
ghost use Rattle.pdl_semantics.specs.Stages.{stage_at};
ghost use Rattle.pdl_form.specs.FormView.{form};
ghost use Rattle.pdl_form.specs.View.{next_view};
ghost use Rattle.pdl_net.specs.Meaning.{signal};
ghost use Rattle.pdl_net.specs.HasWidth.{HasWidth};
ghost use Rattle.pdl_net.specs.Growth.{Extends};
ghost use Rattle.pdl_port.specs.Laws.{HasBits, FreeLaw, net_at, signal_at, places as port_places};
ghost use Rattle.pdl_port.specs.Places.{ArePlaced, stands};
ghost use Rattle.pdl_machine_inflight.specs.Readings.{places_of};
ghost use Rattle.pdl_pipe_beside.specs.Steps.{AreNetsOf};

use crate::port_round::place;
use crate::ports::place_count;
use pdl_build::Builder;
use pdl_form::{FlatPipe, Next};
use pdl_kit::{NoMemory, Seq};
use pdl_net::Net;
use pdl_pipe_answers::next_of;
use pdl_port::{PortRegs, emit_port_free};
use std::alloc::Global;

// The net of a stage.
fn net_of(moves: &[Net], k: usize) -> Net
    requires { k < length moves.now }
    ensures { result ≡ net_at moves.now k }
{
    moves[k]
}

// Of each place of a stage whether its thread moves.
fn place_moves(alloc: Global, b: &Builder, next: Next, moves: &[Net]) -> Result<Seq<Net>, NoMemory>
    requires to { (i : ℕ) → i < length (places_of (next_view next)) →
        slice_index (places_of (next_view next)) i < length moves.now }
    requires moves { HasBits b.now moves.now (length moves.now) }
    ensures { IfOk result (λ xs. AreNetsOf b.now xs (length (places_of (next_view next)))
        (λ i. signal_at b.now moves.now (slice_index (places_of (next_view next)) i))) }
{
    let _regs = b.reg_count();
    let mut nets = Seq::new(alloc);
    for i in 0..place_count(next) as usize {
        nets.push(net_of(moves, place(next, i)))?;
    }
    Ok(nets)
}

/// Whether a port is free, for a delayed read in this stage: `moves` has of each stage whether its thread moves, and those of the stages to which the reading one leads count.
pub fn port_free(
    alloc: Global,
    b: &mut Builder,
    pipe: &FlatPipe,
    port: &PortRegs,
    stage: usize,
    moves: &[Net],
) -> Result<Net, NoMemory>
    requires placed { ArePlaced b.old port.now }
    requires count { port_places port.now
        ≡ length (places_of (stage_at (form pipe.now).pipe stage).next) }
    requires to { (i : ℕ) → i < length (places_of (stage_at (form pipe.now).pipe stage).next) →
        slice_index (places_of (stage_at (form pipe.now).pipe stage).next) i < length moves.now }
    requires moves { HasBits b.old moves.now (length moves.now) }
    ensures bit { IfOk result (λ x. HasWidth b.new x 1) }
    ensures law { IfOk result (λ x.
        FreeLaw (stands port.now) (port_places port.now) (signal b.old port.now.reply)
        (λ i. signal_at b.old moves.now
        (slice_index (places_of (stage_at (form pipe.now).pipe stage).next) i)) (signal b.new x)) }
    ensures extends { Extends b.old b.new }
{
    let places = place_moves(alloc, b, next_of(pipe, stage), moves)?;
    let free = emit_port_free(b, port, &places)?;
    Ok(free)
}
