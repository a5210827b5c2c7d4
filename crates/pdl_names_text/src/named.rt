// The text of a source's netlist with the names of its nets.
ghost use Rattle.std.specs.Prelude.{◌≡◌, ◌≤◌, ◌++◌, IfOk, ℕ, List, length};
ghost use Rattle.pdl_syntax_tree.specs.View.{pipe_view};
ghost use Rattle.pdl_net.specs.Pipe.{IsWellFormed};
ghost use Rattle.pdl_vlog.specs.Layout.{verilog};
ghost use Rattle.pdl_verilog.specs.Names.{HasNames};
ghost use Rattle.pdl_names_text.specs.Texts.{names_text, IsNamedText, IsAccepted, IsNamed};

use crate::names::push_names;
use pdl_check::Accepted;
use pdl_check::check::check;
use pdl_cli_failure::{Failure, in_memory};
use pdl_kit::NoMemory;
use pdl_pipe::{NamedNetlist, compile_named};
use pdl_verilog::verilog_text;
use std::alloc::Global;
use std::mem::drop;

// The text of a netlist with its names.
fn text_with(alloc: Global, named: &NamedNetlist) -> Result<Vec<u8>, NoMemory>
    requires well { IsWellFormed named.now.netlist }
    requires names { HasNames named.now.netlist }
    ensures { IfOk result (λ t. t.items
        ≡ verilog named.now.netlist ++ names_text named.now.names.items) }
{
    let mut text = verilog_text(alloc, &named.netlist)?;
    push_names(&mut text, named.names.as_slice())?;
    Ok(text)
}

// The text of the netlist of an accepted pipe, with what its nets stand for.
fn text_of(alloc: Global, accepted: &Accepted) -> Result<Vec<u8>, NoMemory>
    requires { (b : List ℕ) × IsAccepted b (pipe_view accepted.now.typed.pipe) }
    ensures { IfOk result (λ t. IsNamedText (pipe_view accepted.now.typed.pipe) t.items) }
{
    let named = compile_named(alloc, accepted)?;
    let text = text_with(alloc, &named);
    drop(named);
    text
}

/// The text of the netlist of a source of at most 268,435,456 bytes, and below it what its nets stand for.
pub fn named_text(alloc: Global, source: &[u8]) -> Result<Vec<u8>, Failure>
    requires { length source.now ≤ 268435456 }
    ensures { IfOk result (λ t. IsNamed source.now t.items) }
{
    let accepted = check(alloc, source)?;
    let text = in_memory(text_of(alloc, &accepted));
    drop(accepted);
    text
}
