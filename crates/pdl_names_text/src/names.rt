// The comments that name nets.
ghost use Rattle.std.specs.Prelude.{◌≡◌, ◌++◌, OnOk, codes, decimal};
ghost use Rattle.pdl_names_text.specs.Texts.{net_text, role_text, name_text, names_text, words_text};

use itoa::Buffer;
use pdl_kit::NoMemory;
use pdl_law_parts::Mark;
use pdl_net::Net;
use pdl_pipe::{NamedNet, Role};

// A number in decimal.
fn push_decimal(text: &mut Vec<u8>, number: usize) -> Result<(), NoMemory>
    ensures { OnOk result (text.new.items ≡ text.old.items ++ decimal number) }
{
    let mut buffer = Buffer::new();
    text.extend_from_slice(buffer.format(number as u64).as_bytes())?;
    Ok(())
}

// A net as a netlist's text names it, or an input by its number.
fn push_net(text: &mut Vec<u8>, net: Net) -> Result<(), NoMemory>
    ensures { OnOk result (text.new.items ≡ text.old.items ++ net_text net) }
{
    match net {
        Net::Input(i) => {
            text.extend_from_slice(b"i")?;
            push_decimal(text, i)
        }
        Net::Reg(r) => {
            text.extend_from_slice(b"r")?;
            push_decimal(text, r)
        }
        Net::Cell(k) => {
            text.extend_from_slice(b"n")?;
            push_decimal(text, k)
        }
    }
}

// A word and numbers, each after a space.
fn push_words(text: &mut Vec<u8>, word: &[u8], numbers: &[usize]) -> Result<(), NoMemory>
    ensures { OnOk result (text.new.items ≡ text.old.items ++ words_text word.now numbers.now) }
{
    text.extend_from_slice(b" ")?;
    text.extend_from_slice(word)?;
    for number in numbers {
        text.extend_from_slice(b" ")?;
        push_decimal(text, *number)?;
    }
    Ok(())
}

// What a net stands for.
fn push_role(text: &mut Vec<u8>, role: Role) -> Result<(), NoMemory>
    ensures { OnOk result (text.new.items ≡ text.old.items ++ role_text role) }
{
    match role {
        Role::Holds { stage } => push_words(text, b"holds", &[stage]),
        Role::Moves { stage } => push_words(text, b"moves", &[stage]),
        Role::Keeps { stage, var } => push_words(text, b"keeps", &[stage, var]),
        Role::Ends { stage, var } => push_words(text, b"ends", &[stage, var]),
        Role::Marked {
            stage,
            mark: Mark::Held,
            mem,
            var,
        } => push_words(text, b"held", &[stage, mem, var]),
        Role::Marked {
            stage,
            mark: Mark::Late,
            mem,
            var,
        } => push_words(text, b"late", &[stage, mem, var]),
        Role::Ticket { stage, mem } => push_words(text, b"ticket", &[stage, mem]),
        Role::Guess { stage, place } => push_words(text, b"guess", &[stage, place]),
        Role::Lock { mem, place } => push_words(text, b"lock", &[mem, place]),
        Role::Port { mem, place } => push_words(text, b"port", &[mem, place]),
        Role::Order { stage, place } => push_words(text, b"order", &[stage, place]),
        Role::Tail { stage, mem } => push_words(text, b"tail", &[stage, mem]),
    }
}

// The comment of a name.
fn push_name(text: &mut Vec<u8>, x: NamedNet) -> Result<(), NoMemory>
    ensures { OnOk result (text.new.items ≡ text.old.items ++ name_text x) }
{
    text.extend_from_slice(b"// ")?;
    push_net(text, x.net)?;
    push_role(text, x.role)?;
    text.extend_from_slice(b"\n")?;
    Ok(())
}

/// The comments of names.
pub fn push_names(text: &mut Vec<u8>, names: &[NamedNet]) -> Result<(), NoMemory>
    ensures { OnOk result (text.new.items ≡ text.old.items ++ names_text names.now) }
{
    for x in names {
        push_name(text, *x)?;
    }
    Ok(())
}
