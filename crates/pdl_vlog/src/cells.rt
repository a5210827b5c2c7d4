// Nets, constants and the right sides of cells.
ghost use Rattle.std.specs.Prelude.{◌≡◌, ◌++◌, ◌≤◌, OnOk, IfOk};
ghost use Rattle.pdl_vlog.specs.Layout as spec;
ghost use Rattle.pdl_word.specs.Words.{widest};

use crate::text::Text;
use pdl_kit::{Name, NoMemory, Seq};
use pdl_net::{Array, BinOp, Cell, Dir, Net, Port};
use pdl_word::Word;
use std::alloc::Global;

// Adds the name of a port, where it is an input.
fn add_input(names: &mut Seq<Name>, port: &Port) -> Result<(), NoMemory>
    ensures { OnOk result (names.new ≡ names.old ++ spec.named_input port.now) }
{
    match port.dir {
        Dir::In => names.push(port.name.clone()?),
        Dir::Out(_) => Ok(()),
    }
}

/// The names of the inputs, in order.
pub fn input_names(alloc: Global, ports: &[Port]) -> Result<Seq<Name>, NoMemory>
    ensures { IfOk result (λ names. names ≡ spec.input_names ports.now) }
{
    let mut names = Seq::new(alloc);
    for port in ports {
        add_input(&mut names, port)?;
    }
    Ok(names)
}

/// The name of a net.
pub fn net(text: &mut Text, inputs: &[Name], net: Net) -> Result<(), NoMemory>
    ensures { OnOk result (text.new ≡ text.old ++ spec.net inputs.now net) }
{
    match net {
        Net::Input(i) => match inputs.get(i) {
            Some(name) => text.push(name.as_bytes()),
            None => Ok(()),
        },
        Net::Reg(r) => {
            text.push(b"r")?;
            text.push_decimal(r as u64)
        }
        Net::Cell(k) => {
            text.push(b"n")?;
            text.push_decimal(k as u64)
        }
    }
}

// The name of an array.
fn array(text: &mut Text, arrays: &[Array], m: usize) -> Result<(), NoMemory>
    ensures { OnOk result (text.new ≡ text.old ++ spec.array arrays.now m) }
{
    text.push(b"a_")?;
    match arrays.get(m) {
        Some(array) => text.push(array.name.as_bytes()),
        None => Ok(()),
    }
}

/// The range of a width.
pub fn range(text: &mut Text, width: u8) -> Result<(), NoMemory>
    requires { 1 ≤ width }
    ensures { OnOk result (text.new ≡ text.old ++ spec.range width) }
{
    text.push(b"[")?;
    text.push_decimal(u64::from(width - 1))?;
    text.push(b":0]")
}

/// A constant.
pub fn constant(text: &mut Text, width: u8, value: Word) -> Result<(), NoMemory>
    requires { width ≤ widest }
    ensures { OnOk result (text.new ≡ text.old ++ spec.constant width value) }
{
    text.push_decimal(u64::from(width))?;
    text.push(b"'h")?;
    text.push_hex((width + 3) / 4, value)
}

fn operator(op: BinOp) -> &'static [u8]
    ensures { result.now ≡ spec.operator op }
{
    match op {
        BinOp::Add => b"+",
        BinOp::Sub => b"-",
        BinOp::Mul => b"*",
        BinOp::And => b"&",
        BinOp::Or => b"|",
        BinOp::Xor => b"^",
        BinOp::Eq => b"==",
        BinOp::Ne => b"!=",
        BinOp::Lt => b"<",
        BinOp::Shl => b"<<",
        BinOp::Shr => b">>",
    }
}

fn bin(text: &mut Text, inputs: &[Name], op: BinOp, a: Net, b: Net) -> Result<(), NoMemory>
    ensures { OnOk result (text.new ≡ text.old ++ spec.bin inputs.now op a b) }
{
    net(text, inputs, a)?;
    text.push(b" ")?;
    text.push(operator(op))?;
    text.push(b" ")?;
    net(text, inputs, b)
}

fn mux(text: &mut Text, inputs: &[Name], c: Net, a: Net, b: Net) -> Result<(), NoMemory>
    ensures { OnOk result (text.new ≡ text.old ++ spec.mux inputs.now c a b) }
{
    net(text, inputs, c)?;
    text.push(b" ? ")?;
    net(text, inputs, a)?;
    text.push(b" : ")?;
    net(text, inputs, b)
}

fn slice(text: &mut Text, inputs: &[Name], a: Net, high: u8, low: u8) -> Result<(), NoMemory>
    ensures { OnOk result (text.new ≡ text.old ++ spec.slice inputs.now a high low) }
{
    net(text, inputs, a)?;
    text.push(b"[")?;
    text.push_decimal(u64::from(high))?;
    text.push(b":")?;
    text.push_decimal(u64::from(low))?;
    text.push(b"]")
}

fn cat(text: &mut Text, inputs: &[Name], a: Net, b: Net) -> Result<(), NoMemory>
    ensures { OnOk result (text.new ≡ text.old ++ spec.cat inputs.now a b) }
{
    text.push(b"{")?;
    net(text, inputs, a)?;
    text.push(b", ")?;
    net(text, inputs, b)?;
    text.push(b"}")
}

fn rep(text: &mut Text, inputs: &[Name], count: u8, a: Net) -> Result<(), NoMemory>
    ensures { OnOk result (text.new ≡ text.old ++ spec.rep inputs.now count a) }
{
    text.push(b"{")?;
    text.push_decimal(u64::from(count))?;
    text.push(b"{")?;
    net(text, inputs, a)?;
    text.push(b"}}")
}

fn read(
    text: &mut Text,
    inputs: &[Name],
    arrays: &[Array],
    m: usize,
    addr: Net,
) -> Result<(), NoMemory>
    ensures { OnOk result (text.new ≡ text.old ++ spec.read inputs.now arrays.now m addr) }
{
    array(text, arrays, m)?;
    text.push(b"[")?;
    net(text, inputs, addr)?;
    text.push(b"]")
}

/// The right side of a cell.
pub fn term(text: &mut Text, inputs: &[Name], arrays: &[Array], cell: Cell) -> Result<(), NoMemory>
    requires { spec.IsShort cell }
    ensures { OnOk result (text.new ≡ text.old ++ spec.term inputs.now arrays.now cell) }
{
    match cell {
        Cell::Const { width, value } => constant(text, width, value),
        Cell::Not(a) => {
            text.push(b"~")?;
            net(text, inputs, a)
        }
        Cell::Bin(op, a, b) => bin(text, inputs, op, a, b),
        Cell::Mux(c, a, b) => mux(text, inputs, c, a, b),
        Cell::Slice { a, high, low } => slice(text, inputs, a, high, low),
        Cell::Cat(a, b) => cat(text, inputs, a, b),
        Cell::Rep { count, a } => rep(text, inputs, count, a),
        Cell::Read { array, addr } => read(text, inputs, arrays, array, addr),
    }
}
