// What is dumped of a cycle.
ghost use Rattle.std.specs.Prelude.{◌≡◌, ◌≤◌, ◌<◌, ◌+◌, ◌^◌, ◌++◌, ◌==◌, ◌||◌, ◌&&◌, not, OnOk, length};
ghost use Rattle.pdl_kit.specs.Counts.{HasCause};
ghost use Rattle.pdl_trace.specs.Passed.{Passes};
ghost use Rattle.pdl_net.specs.Circuit.{circuit_of, outputs_of};
ghost use Rattle.pdl_wave.specs.Moments.{changes};
ghost use Rattle.pdl_wave.specs.Dump.{width_of};
ghost use Rattle.pdl_wave.specs.Wave.{is_none};
ghost use Rattle.pdl_netrun_wave.specs.Cycles.{known, changes_text, cycle_text, port_text, AreDumpable, IsShownBy};

use pdl_kit::sink::{Sink, WriteFailed};
use pdl_netrun::Sim;
use pdl_trace::LineOut;
use pdl_wave::{WavePort, change_line, time_line};
use pdl_word::Word;

// Passes on the line of the i-th port's value, if it changed.
fn push_port<S: Sink>(
    out: &mut LineOut,
    sink: &mut S,
    ports: &[WavePort],
    i: usize,
    value: Word,
    changed: bool,
) -> Result<(), WriteFailed>
    requires dumpable { AreDumpable ports.now }
    requires there { i < length ports.now }
    requires fits { value < 2 ^ width_of ports.now i }
    ensures bytes { Passes (S.written sink.old) (S.written sink.new) result
        (out.old ++ port_text ports.now changed i value) out.new }
    ensures cause { HasCause (S.faults sink.old) (S.faults sink.new) result }
{
    if !changed {
        return Ok(());
    }
    let line = change_line(value, ports[i].width, i);
    out.push(sink, line.as_bytes())
}

// Whether a port has another value than before; before the first cycle it has none.
fn has_changed(first: bool, before: Word, value: Word) -> bool
    ensures { result ≡ (first || not (before == value)) }
{
    first || before != value
}

// Passes on the lines of the ports whose values in the last cycle are others than before, or of all in the first cycle; they are then those before the next.
fn push_ports<S: Sink>(
    out: &mut LineOut,
    sink: &mut S,
    ports: &[WavePort],
    first: bool,
    before: &mut [Word],
    sim: &Sim,
) -> Result<(), WriteFailed>
    requires dumpable { AreDumpable ports.now }
    requires shown { IsShownBy ports.now sim.now }
    requires before { length before.old ≡ length ports.now }
    ensures bytes { Passes (S.written sink.old) (S.written sink.new) result
        (out.old ++ changes_text ports.now
        (changes 0 (known first before.old) sim.now.last.ports)) out.new }
    ensures before { OnOk result (before.new ≡ sim.now.last.ports) }
    ensures cause { HasCause (S.faults sink.old) (S.faults sink.new) result }
{
    for i in 0..ports.len() {
        let value = sim.port(i);
        push_port(
            out,
            sink,
            ports,
            i,
            value,
            has_changed(first, before[i], value),
        )?;
        before[i] = value;
    }
    Ok(())
}

// Whether no port has another value in the last cycle than before.
fn is_quiet(before: &[Word], sim: &Sim) -> bool
    requires count { length before.now ≡ length (outputs_of (circuit_of sim.now.netlist)) }
    requires ports { length sim.now.last.ports ≡ length before.now }
    ensures { result ≡ is_none (changes 0 before.now sim.now.last.ports) }
{
    for (i, value) in before.iter().enumerate() {
        if sim.port(i) != *value {
            return false;
        }
    }
    true
}

// Whether nothing is dumped of the last cycle: it isn't the first, and no port has another value than before.
fn is_silent(first: bool, before: &[Word], sim: &Sim) -> bool
    requires count { length before.now ≡ length (outputs_of (circuit_of sim.now.netlist)) }
    requires ports { length sim.now.last.ports ≡ length before.now }
    ensures { result ≡ (not first && is_none (changes 0 before.now sim.now.last.ports)) }
{
    !first && is_quiet(before, sim)
}

/// Passes on what is dumped of the last cycle, of this number: its time and the ports that changed, if some did, and all in the first cycle.
pub fn push_cycle<S: Sink>(
    out: &mut LineOut,
    sink: &mut S,
    ports: &[WavePort],
    cycle: u32,
    before: &mut [Word],
    sim: &Sim,
) -> Result<(), WriteFailed>
    requires dumpable { AreDumpable ports.now }
    requires shown { IsShownBy ports.now sim.now }
    requires before { length before.old ≡ length ports.now }
    ensures bytes { Passes (S.written sink.old) (S.written sink.new) result
        (out.old ++ cycle_text ports.now cycle before.old sim.now.last.ports) out.new }
    ensures before { OnOk result (before.new ≡ sim.now.last.ports) }
    ensures cause { HasCause (S.faults sink.old) (S.faults sink.new) result }
{
    if is_silent(cycle == 1, before, sim) {
        return Ok(());
    }
    let line = time_line(u64::from(cycle));
    out.push(sink, line.as_bytes())?;
    push_ports(out, sink, ports, cycle == 1, before, sim)
}
