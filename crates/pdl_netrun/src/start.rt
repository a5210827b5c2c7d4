// What a simulator holds at the start of the first cycle.

ghost use Rattle.std.specs.Prelude.{◌≡◌, ◌≤◌, length, IfOk, drop, take, map};
ghost use Rattle.pdl_net.specs.Circuit.{circuit_of};
ghost use Rattle.pdl_net.specs.Run.{delayed_mems, filled_words, loaded_arrays};
ghost use Rattle.pdl_net.specs.Holds.{Holds, ImageFits};
ghost use Rattle.pdl_net.specs.Well.{IsWell};
ghost use Rattle.pdl_net.specs.Width.{HasWidths};
ghost use Rattle.pdl_netrun.specs.Held.{AreWithin, bits_of, first_lists, held_lists};
ghost use Rattle.pdl_netrun.specs.Order.{IsOrderOf};
ghost use Rattle.pdl_netrun.specs.Outside.{IsOutsideOf, first_stores, requests_of, stores_of};
ghost use Rattle.pdl_netrun.specs.Places.{places_of};
ghost use Rattle.pdl_netrun.specs.Steps.{array_words};

use crate::held::{HeldWords, WordLists};
use crate::narrow_lists::hold;
use crate::order::CellOrder;
use crate::outside::Outside;
use crate::places::{places_of_mem, request_places};
use crate::plan::put_constants;
use crate::widths::is_narrow;
use pdl_image::Image;
use pdl_kit::{MemInfo, NoMemory};
use pdl_net::Netlist;
use pdl_word::Word;
use std::alloc::Global;

/// Each array with its part of the image, which begins after those of so many delayed memories.
#[tactic(auto, using(crate::proofs::Environment::part_of))]
pub fn all_arrays(
    alloc: Global,
    n: &Netlist,
    image: &Image,
    delayed: usize,
) -> Result<Vec<Vec<Word>>, NoMemory>
    requires fits { ImageFits (circuit_of n.now) (drop delayed image.now) }
    requires few { delayed ≤ 16 }
    ensures { IfOk result (λ v. array_words v.items
        ≡ loaded_arrays n.now.arrays (drop delayed image.now)) }
{
    let mut arrays = Vec::new(alloc);
    for m in 0..n.arrays.len() {
        let array = &n.arrays.as_slice()[m];
        let words = filled_to(alloc, array.depth, image.words(delayed + m))?;
        arrays.push(words)?;
    }
    Ok(arrays)
}

/// How many memories of a netlist are delayed.
pub fn count_delayed(n: &Netlist) -> usize
    ensures { result ≡ length (delayed_mems n.now) }
{
    let mut count = 0;
    for mem in n.mems.as_slice() {
        if mem.delayed {
            count += 1;
        }
    }
    count
}

/// The delayed memories, so many, with their parts of the image and no request.
#[tactic(auto, using(crate::proofs::Environment::first_none, crate::proofs::Environment::first_more))]
pub fn all_outside(
    alloc: Global,
    n: &Netlist,
    image: &Image,
    delayed: usize,
) -> Result<Vec<Outside>, NoMemory>
    requires first { delayed_mems n.now ≡ take delayed n.now.mems }
    requires many { delayed ≤ length n.now.mems }
    requires image { delayed ≤ length image.now }
    ensures stores { IfOk result (λ v. stores_of v.items ≡ first_stores (take delayed image.now)) }
    ensures commits { IfOk result (λ v. map (λ m. m.commits) v.items
        ≡ map (λ i. places_of (circuit_of n.now) i.name) (delayed_mems n.now)) }
    ensures requests { IfOk result (λ v. map (λ m. m.requests) v.items
        ≡ map (λ i. requests_of (circuit_of n.now) i.name) (delayed_mems n.now)) }
{
    let mut outside = Vec::new(alloc);
    for m in 0..delayed {
        let memory = outside_of(alloc, n, &n.mems.as_slice()[m], image.words(m))?;
        outside.push(memory)?;
    }
    Ok(outside)
}

/// A delayed memory with these words and no request.
fn outside_of(
    alloc: Global,
    n: &Netlist,
    mem: &MemInfo,
    words: &[Word],
) -> Result<Outside, NoMemory>
    ensures { IfOk result (λ o. IsOutsideOf (circuit_of n.now) mem.now.name words.now o) }
{
    let commits = places_of_mem(alloc, n, mem)?;
    let requests = request_places(alloc, n, mem)?;
    let words = Vec::from_slice(alloc, words)?;
    Ok(Outside {
        words,
        request: None,
        commits,
        requests,
    })
}

/// Words, and zeros after them up to a depth.
fn filled_to(alloc: Global, depth: u32, words: &[Word]) -> Result<Vec<Word>, NoMemory>
    requires { length words.now ≤ depth }
    ensures { IfOk result (λ v. v.items ≡ filled_words depth words.now) }
{
    let mut all = Vec::from_slice(alloc, words)?;
    all.resize(depth as usize, 0)?;
    Ok(all)
}

/// What is held before the first cycle, where registers and arrays have these values; the cells have these widths.
pub fn first_held(
    alloc: Global,
    n: &Netlist,
    order: &CellOrder,
    widths: &[u8],
    next: Vec<Word>,
    arrays: Vec<Vec<Word>>,
) -> Result<HeldWords, NoMemory>
    requires well { IsWell (circuit_of n.now) }
    requires order { IsOrderOf order.now }
    requires net { order.now.net.now ≡ n.now }
    requires widths { HasWidths (circuit_of n.now) widths.now }
    requires cells { length widths.now ≡ length n.now.cells }
    requires holds { Holds (circuit_of n.now) next.items (array_words arrays.items) }
    ensures lists { IfOk result (λ h. held_lists h ≡ first_lists (circuit_of n.now)
        order.now.cells.items next.items (array_words arrays.items)) }
    ensures within { IfOk result (λ h. AreWithin (bits_of h) (circuit_of n.now)) }
{
    let first_cell = order.regs as usize + next.len();
    let mut values = vec![in alloc; 0; first_cell]?;
    put_constants(n, order, &mut values)?;
    let lists = WordLists {
        values,
        arrays,
        next,
    };
    hold(alloc, lists, is_narrow(n, widths))
}
