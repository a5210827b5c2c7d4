// The replies of delayed memories in a cycle.
ghost use Rattle.std.specs.Prelude.{◌≡◌, IfOk, length, count_by};
ghost use Rattle.pdl_semantics.specs.Flat as flat;
ghost use Rattle.pdl_form.specs.View.{mems_view};
ghost use Rattle.pdl_machine_facts.specs.Ports.{replies_of};

use pdl_form::FlatMem;
use pdl_kit::NoMemory;
use std::alloc::Global;

/// Room for a reply of each delayed memory.
pub fn no_replies(alloc: Global, mems: &[FlatMem]) -> Result<Vec<bool>, NoMemory>
    ensures { IfOk result (λ v.
        length v.items ≡ count_by (λ (x : flat.Mem). flat.is_delayed x.kind) (mems_view mems.now)) }
{
    let mut replies = Vec::new(alloc);
    for mem in mems {
        if mem.kind.is_delayed() {
            replies.push(false)?;
        }
    }
    Ok(replies)
}

/// The replies are these bits, the lowest first.
pub fn put_bits(replies: &mut [bool], bits: u16)
    ensures { replies.new ≡ replies_of (length replies.old) bits }
{
    let mut left = bits;
    for i in 0..replies.len() {
        replies[i] = left % 2 == 1;
        left /= 2;
    }
}
