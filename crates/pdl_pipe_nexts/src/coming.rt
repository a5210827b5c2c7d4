// What the threads that come into a stage bring.
ghost use Rattle.std.specs.Prelude.{◌≡◌, ◌<◌, IfOk, length, slice_index_or};
ghost use Rattle.pdl_machine_facts.specs.Slots.{ways};
ghost use Rattle.pdl_net.specs.Meaning.{Means, signal};
ghost use Rattle.pdl_net.specs.HasWidth.{HasWidth};
ghost use Rattle.pdl_net.specs.Growth.{Extends};
ghost use Rattle.pdl_pipe_exprs.specs.Nets.{signals_in};
ghost use Rattle.pdl_law_parts.specs.Views.{comers, first_coming};
ghost use Rattle.pdl_pipe_nexts.specs.Lines.{line_form, line_pipe, line_views, line_moves, IsLineIn, ValueAs};
ghost use Rattle.pdl_pipe_nexts.specs.Arrivals.{AreArrivals};
ghost use Rattle.pdl_pipe_nexts.specs.Brings.{brought_signal, brought_out, brought_width, IsArgument, IsBrought};

use crate::arrivals::Arrival;
use crate::births::new_coming;
use crate::line::{StageLine, stage_of};
use pdl_build::Builder;
use pdl_kit::NoMemory;
use pdl_net::Net;
use pdl_pipe_registers::{Item, ended};

// What a thread brings out of stage j.
fn brings(b: &Builder, line: &StageLine<'_>, j: usize, what: Option<Item>) -> Net
    requires line { IsLineIn b.now line.now }
    requires low { j < length line.now.stages.now }
    requires what { IsBrought (line_form line.now) what }
    ensures means { Means b.now result (brought_out what (line_views b.now line.now j)) }
    ensures wide { (signal b.now result).width
        ≡ brought_width (line_form line.now) (signals_in b.now line.now.shared.now.next) what }
{
    match what {
        None => line.shared.bits.one,
        Some(item) => ended(b, line.pipe, line.shared, stage_of(line, j), item),
    }
}

/// An arrival, by its place.
pub fn arrival_at(arrivals: &[Arrival], i: usize) -> Arrival
    requires { i < length arrivals.now }
    ensures { result ≡ slice_index_or arrivals.now i result }
{
    arrivals[i]
}

/// What the first that comes into stage q brings, else `rest`.
pub(crate) fn coming(
    b: &mut Builder,
    line: &StageLine<'_>,
    q: usize,
    arrivals: &[Arrival],
    what: Option<Item>,
    rest: Net,
) -> Result<Net, NoMemory>
    requires line { IsLineIn b.old line.now }
    requires arrivals { AreArrivals b.old (line_pipe line.now) (line_views b.old line.now)
        (line_moves b.old line.now) q (ways (line_pipe line.now) q) arrivals.now }
    requires low { q < length (line_pipe line.now).stages }
    requires what { IsBrought (line_form line.now) what }
    requires new { q ≡ 0 → IsArgument (line_pipe line.now) what }
    requires rest { HasWidth b.old rest
        (brought_width (line_form line.now) (signals_in b.old line.now.shared.now.next) what) }
    ensures value { IfOk result (λ x. ValueAs (signal b.new x) (first_coming (brought_signal what)
        (comers (line_pipe line.now) (line_views b.old line.now) (line_moves b.old line.now) q)
        (signal b.old rest))) }
    ensures wide { IfOk result (λ x. HasWidth b.new x (signal b.old rest).width) }
    ensures extends { Extends b.old b.new }
    ensures regs { b.new.regs ≡ b.old.regs }
{
    if q == 0 {
        return new_coming(b, line, what, rest);
    }
    let mut net = rest;
    for i in 0..arrivals.len() {
        let arrival = arrival_at(arrivals, arrivals.len() - 1 - i);
        let value = brings(b, line, arrival.from, what);
        net = b.mux(arrival.comes, value, net)?;
    }
    Ok(net)
}
