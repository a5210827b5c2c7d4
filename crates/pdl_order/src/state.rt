//! The registers of an order, and the nets of its oldest entry and of emptiness.
ghost use Rattle.std.specs.Prelude.{◌≡◌, ℕ, [], ◌∷◌, ◌+◌, ◌^◌, ◌<◌, ◌≤◌, length, IfOk, OnOk};
ghost use Rattle.pdl_net.specs.Circuit.{reg_reset};
ghost use Rattle.pdl_net.specs.Meaning.{Means, signal};
ghost use Rattle.pdl_net.specs.Growth.{Extends};
ghost use Rattle.pdl_order.specs.Laws.{own, IsFragment, HasOrderNets, StartLaw, FirstLaw};
ghost use Rattle.pdl_order.specs.Words.{sides_at, HasWords, ArePlaced, stands};
ghost use Rattle.pdl_order.specs.Nets.{empty_signal, first_signal};

use crate::OrderRegs;
use crate::layout::OrderLayout;
use pdl_build::Builder;
use pdl_kit::{NoMemory, Seq};
use pdl_net::{BinOp, Net};
use std::alloc::Global;

/// The two registers of an order, 0 at first.
fn emit_words(b: &mut Builder, l: OrderLayout) -> Result<(), NoMemory>
    requires from { l.from ≡ length b.old.regs }
    requires low { 1 ≤ l.stages }
    requires high { l.stages ≤ 64 }
    ensures words { OnOk result (HasWords b.new l) }
    ensures count { OnOk result (length b.new.regs ≡ l.from + 2) }
    ensures used { OnOk result (reg_reset b.new l.from ≡ 0) }
    ensures sides { OnOk result (reg_reset b.new (sides_at l) ≡ 0) }
    ensures extends { Extends b.old b.new }
{
    b.reg(l.stages, 0)?;
    b.reg(l.stages, 0)?;
    let _count = b.reg_count();
    Ok(())
}

/// A number and the next one.
fn two(alloc: Global, from: usize) -> Result<Seq<usize>, NoMemory>
    requires { from + 2 < 2 ^ 64 }
    ensures { IfOk result (λ xs. xs ≡ from ∷ (from + 1) ∷ []) }
{
    let mut found = Seq::new(alloc);
    found.push(from)?;
    found.push(from + 1)?;
    Ok(found)
}

/// Whether no thread is inside.
fn emit_empty(b: &mut Builder, l: OrderLayout) -> Result<Net, NoMemory>
    requires words { HasWords b.old l }
    ensures means { IfOk result (λ x. Means b.new x (empty_signal l)) }
    ensures extends { Extends b.old b.new }
{
    let none = b.constant(l.stages, 0)?;
    b.bin(BinOp::Eq, Net::Reg(l.from), none)
}

/// Whether the oldest thread inside took the first branch.
fn emit_first(b: &mut Builder, l: OrderLayout) -> Result<Net, NoMemory>
    requires words { HasWords b.old l }
    ensures means { IfOk result (λ x. Means b.new x (first_signal l)) }
    ensures extends { Extends b.old b.new }
{
    b.slice(Net::Reg(l.from + 1), 0, 0)
}

/// Makes the registers of a fork's order, for at most `branch_stages` threads, 1 to 64, and what it tells of the oldest one.
#[tactic(auto, using(crate::proofs::OrderGrowth::words_kept))]
pub fn emit_order_state(
    alloc: Global,
    b: &mut Builder,
    branch_stages: u8,
) -> Result<OrderRegs, NoMemory>
    requires low { 1 ≤ branch_stages }
    requires high { branch_stages ≤ 64 }
    ensures stages { IfOk result (λ r. r.stages ≡ branch_stages) }
    ensures placed { IfOk result (λ r. ArePlaced b.new r) }
    ensures fragment { IfOk result (λ r. IsFragment b.old b.new r) }
    ensures nets { IfOk result (λ r. HasOrderNets b.new r) }
    ensures start { IfOk result (λ r. StartLaw (stands r) b.new (own r)) }
    ensures first { IfOk result (λ r.
        FirstLaw (stands r) (signal b.new r.first) (signal b.new r.empty)) }
    ensures extends { Extends b.old b.new }
{
    let l = OrderLayout {
        from: b.reg_count(),
        stages: branch_stages,
    };
    emit_words(b, l)?;
    let regs = two(alloc, l.from)?;
    let empty = emit_empty(b, l)?;
    let first = emit_first(b, l)?;
    Ok(OrderRegs {
        regs,
        first,
        empty,
        stages: branch_stages,
    })
}
