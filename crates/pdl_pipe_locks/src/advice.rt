// What the stages write to the arrays of advisory memories, the last stage first: of two writes of one word the later port holds.
ghost use Rattle.std.specs.Prelude.{◌∷◌, [], OnOk, map};
ghost use Rattle.pdl_form.specs.FormView.{form};
ghost use Rattle.pdl_net.specs.Meaning.{signal};
ghost use Rattle.pdl_net.specs.HasWidth.{HasWidth};
ghost use Rattle.pdl_pipe_exprs.specs.Conditions.{AreBits};
ghost use Rattle.pdl_law_parts.specs.Ports.{advises_to};
ghost use Rattle.pdl_word.specs.Each.{Each};
ghost use Rattle.pdl_pipe_walk.specs.Parts.{advising_in};
ghost use Rattle.pdl_pipe_walk.specs.Locked.{members};
ghost use Rattle.pdl_pipe_locks.specs.Round.{HasRoundLocks, HasRoundDeeds};
ghost use Rattle.pdl_pipe_locks.specs.Advised.{HavePlainArrays, IsGivenAdvising, advises_in, ExtendsAdvice};

use crate::deeds::{StageDeeds, deed_at};
use crate::steps::Round;
use pdl_build::Builder;
use pdl_form::FlatPipe;
use pdl_kit::NoMemory;
use pdl_lockapi::LockModule;
use pdl_net::Net;
use pdl_pipe_exprs::Bits;
use pdl_pipe_walk::AdvisingNet;
use pdl_pipe_walk::locks::array_of;

// A write of an advisory memory, where its thread moves.
fn advise_one(
    b: &mut Builder,
    pipe: &FlatPipe,
    bits: Bits,
    moves: Net,
    x: &AdvisingNet,
) -> Result<(), NoMemory>
    requires bits { AreBits b.old bits }
    requires arrays { HavePlainArrays b.old (form pipe.now).pipe }
    requires moves { HasWidth b.old moves 1 }
    requires given { IsGivenAdvising b.old (form pipe.now).pipe x.now }
    ensures { OnOk result (ExtendsAdvice (form pipe.now).pipe b.old b.new
        (λ m. advises_to m (signal b.old moves) (advising_in b.old x.now ∷ []))) }
{
    let on = bits.both(b, moves, x.on)?;
    let array = array_of(pipe, x.mem);
    b.write(array, on, x.addr, x.value)?;
    Ok(())
}

// The writes of a stage, where its thread moves.
fn advise_stage(
    b: &mut Builder,
    pipe: &FlatPipe,
    bits: Bits,
    moves: Net,
    advises: &[AdvisingNet],
) -> Result<(), NoMemory>
    requires bits { AreBits b.old bits }
    requires arrays { HavePlainArrays b.old (form pipe.now).pipe }
    requires moves { HasWidth b.old moves 1 }
    requires given { Each (IsGivenAdvising b.old (form pipe.now).pipe) advises.now }
    ensures { OnOk result (ExtendsAdvice (form pipe.now).pipe b.old b.new
        (λ m. advises_to m (signal b.old moves) (map (advising_in b.old) advises.now))) }
{
    for x in advises {
        advise_one(b, pipe, bits, moves, x)?;
    }
    Ok(())
}

/// The arrays of the advisory memories take the writes of the stages whose threads move.
///
/// The deeds have one for each stage, in order.
pub fn set_advice<L: LockModule>(b: &mut Builder, round: &Round<'_, '_, L>) -> Result<(), NoMemory>
    requires bits { AreBits b.old round.now.bits }
    requires locked { HasRoundLocks (members L.LockModule) b.old round.now }
    requires deeds { HasRoundDeeds (members L.LockModule) b.old round.now }
    ensures { OnOk result (ExtendsAdvice (form round.now.pipe.now).pipe b.old b.new
        (advises_in b.old round.now.deeds.now)) }
{
    let count = round.deeds.len();
    for i in 0..count {
        let deed = deed_at(round.deeds, count - 1 - i);
        let advises = deed.ended.advises.as_slice();
        advise_stage(b, round.pipe, round.bits, deed.moves, advises)?;
    }
    Ok(())
}
