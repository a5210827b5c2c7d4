// The text of an image.
ghost use Rattle.std.specs.Prelude.{◌≡◌, ◌≤◌, ◌<◌, ◌++◌, ◌^◌, IfOk, OnOk, true, length, codes, decimal, flat_map, slice_index_or, None, List, ℕ};
ghost use Rattle.std.specs.List.{range_with_len};
ghost use Rattle.pdl_asm_table.specs.Tables.{IsTable};
ghost use Rattle.pdl_asm.specs.Assembly.{image_text, word_line};
ghost use Rattle.pdl_word.specs.Words.{widest};

use crate::words::WordSlots;
use pdl_asm_table::Table;
use pdl_kit::{Name, NoMemory};
use pdl_trace::word_line as line_of_word;
use pdl_word::Word;
use std::alloc::Global;

// The line of an address, if it has a word.
fn push_word(
    text: &mut Vec<u8>,
    mem: &Name,
    width: u8,
    address: usize,
    word: Option<Word>,
) -> Result<(), NoMemory>
    requires name { length mem.now ≤ 32 }
    requires width { width ≤ widest }
    ensures { OnOk result
        (text.new.items ≡ text.old.items ++ word_line mem.now width address word) }
{
    if let Some(value) = word {
        let line = line_of_word(mem, address as u64, value, width);
        text.extend_from_slice(line.as_bytes())?;
    }
    Ok(())
}

/// The image of the words that are written, by ascending address.
pub fn to_image(alloc: Global, table: &Table, words: &WordSlots) -> Result<Vec<u8>, NoMemory>
    ensures text { IfOk result
        (λ t. t.items ≡ image_text table.now (λ address. slice_index_or words.now address None)) }
    ensures table { IsTable table.now }
{
    let (mem, width) = (table.mem(), table.word());
    let mut text = Vec::new(alloc);
    text.extend_from_slice(b"image 1\n")?;
    let slots = words.slots();
    for address in 0..slots.len() {
        push_word(&mut text, mem, width, address, slots[address])?;
    }
    Ok(text)
}
