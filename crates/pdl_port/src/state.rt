//! The registers of a port, and the nets that tell of each place whether its thread has its answer.
ghost use Rattle.std.specs.Prelude.{◌≡◌, ℕ, ◌+◌, ◌^◌, ◌<◌, ◌≤◌, length, slice_index, IfOk, OnOk};
ghost use Rattle.pdl_net.specs.Meaning.{IsThere, Means, signal};
ghost use Rattle.pdl_net.specs.HasWidth.{HasWidth};
ghost use Rattle.pdl_net.specs.Growth.{Extends};
ghost use Rattle.pdl_port.specs.Laws.{places, own, IsFragment, HasAnswerNets, StartLaw, AnswerLaw, answer_signals};
ghost use Rattle.pdl_port.specs.Places.{HasPlaces, AreReset, ArePlaced, stands};
ghost use Rattle.pdl_port.specs.Nets.{answered_signal, given_signal, AreAnswers};

use crate::layout::PortLayout;
use crate::{Answer, PortRegs};
use pdl_build::Builder;
use pdl_kit::{MemInfo, NoMemory, Seq};
use pdl_net::Net;
use std::alloc::Global;

/// So many numbers from this one on.
fn numbers(alloc: Global, from: usize, count: usize) -> Result<Seq<usize>, NoMemory>
    requires { from + count < 2 ^ 64 }
    ensures count { IfOk result (λ xs. length xs ≡ count) }
    ensures listed { IfOk result (λ xs. (k : ℕ) → k < count → slice_index xs k ≡ from + k) }
{
    let mut found = Seq::new(alloc);
    for k in 0..count {
        found.push(from + k)?;
    }
    Ok(found)
}

/// The registers of a port.
#[tactic(auto, using(crate::proofs::MadeRegisters::places_none, crate::proofs::MadeRegisters::places_more, crate::proofs::MadeRegisters::reset_none, crate::proofs::MadeRegisters::reset_more))]
fn emit_registers(b: &mut Builder, l: PortLayout) -> Result<(), NoMemory>
    requires from { l.from ≡ length b.old.regs }
    ensures small { OnOk result (l.from + l.places + 1 < 2 ^ 64) }
    ensures count { OnOk result (length b.new.regs ≡ l.from + l.places + 1) }
    ensures places { OnOk result (HasPlaces b.new l l.places) }
    ensures reset { OnOk result (AreReset b.new l l.places) }
    ensures extends { Extends b.old b.new }
{
    b.reg(1, 0)?;
    for _k in 0..l.places {
        b.reg(1, 0)?;
    }
    let _count = b.reg_count();
    Ok(())
}

/// What a port tells of place k.
fn emit_answer(
    b: &mut Builder,
    l: PortLayout,
    reply: Net,
    word: Net,
    k: usize,
) -> Result<Answer, NoMemory>
    requires small { l.from + l.places + 1 < 2 ^ 64 }
    requires places { HasPlaces b.old l l.places }
    requires within { k < l.places }
    requires reply { HasWidth b.old reply 1 }
    requires word_there { IsThere b.old word }
    ensures answered { IfOk result (λ x.
        Means b.new x.answered (answered_signal l (signal b.old reply) k)) }
    ensures given { IfOk result (λ x.
        Means b.new x.given (given_signal l (signal b.old reply) k)) }
    ensures value { IfOk result (λ x. Means b.new x.value (signal b.old word)) }
    ensures extends { Extends b.old b.new }
{
    let one = b.constant(1, 1)?;
    let zero = b.constant(1, 0)?;
    let owns = Net::Reg(l.from + k + 1);
    let answered = b.mux(owns, reply, one)?;
    let given = b.mux(owns, reply, zero)?;
    Ok(Answer {
        answered,
        given,
        value: word,
    })
}

/// What a port tells of each place.
#[tactic(auto, using(crate::proofs::MadeRegisters::answers_none, crate::proofs::MadeRegisters::answers_more, crate::proofs::PortGrowth::places_kept))]
fn emit_answers(
    alloc: Global,
    b: &mut Builder,
    l: PortLayout,
    reply: Net,
    word: Net,
) -> Result<Seq<Answer>, NoMemory>
    requires small { l.from + l.places + 1 < 2 ^ 64 }
    requires places { HasPlaces b.old l l.places }
    requires reply { HasWidth b.old reply 1 }
    requires word_there { IsThere b.old word }
    ensures answers { IfOk result (λ xs.
        AreAnswers b.new l (signal b.old reply) (signal b.old word) xs l.places) }
    ensures extends { Extends b.old b.new }
{
    let mut answers = Seq::new(alloc);
    for k in 0..l.places {
        answers.push(emit_answer(b, l, reply, word, k)?)?;
    }
    Ok(answers)
}

/// Makes the registers of a port for so many next stages, 1 or 2, and what it tells of each; `reply` says whether the outstanding request is answered, and `word` with which word.
pub fn emit_port_state(
    alloc: Global,
    b: &mut Builder,
    mem: &MemInfo,
    reply: Net,
    word: Net,
    next_stages: u8,
) -> Result<PortRegs, NoMemory>
    requires reply { HasWidth b.old reply 1 }
    requires word { HasWidth b.old word mem.now.width }
    requires some { 1 ≤ next_stages }
    requires few { next_stages ≤ 2 }
    ensures reply { IfOk result (λ r. r.reply ≡ reply) }
    ensures word { IfOk result (λ r. r.word ≡ word) }
    ensures count { IfOk result (λ r. places r ≡ next_stages) }
    ensures placed { IfOk result (λ r. ArePlaced b.new r) }
    ensures fragment { IfOk result (λ r. IsFragment b.old b.new r) }
    ensures nets { IfOk result (λ r. HasAnswerNets b.new mem.now.width r) }
    ensures start { IfOk result (λ r. StartLaw (stands r) b.new (own r)) }
    ensures answers { IfOk result (λ r.
        AnswerLaw (stands r) next_stages (signal b.new reply) (signal b.new word)
        (answer_signals b.new r)) }
    ensures extends { Extends b.old b.new }
{
    let l = PortLayout {
        from: b.reg_count(),
        places: next_stages as usize,
    };
    emit_registers(b, l)?;
    let regs = numbers(alloc, l.from, l.places + 1)?;
    let answers = emit_answers(alloc, b, l, reply, word)?;
    Ok(PortRegs {
        regs,
        reply,
        word,
        answers,
    })
}
