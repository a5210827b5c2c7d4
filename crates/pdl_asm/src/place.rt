// Places, and the labels that lines define.
ghost use Rattle.std.specs.Prelude.{◌≡◌, ◌^◌, ◌+◌, ◌+ℤ◌, ◌≤ℤ◌, ℕ, pos, neg_ℤ, OnOk, is_some};
ghost use Rattle.pdl_asm_table.specs.Dictionaries.{value_of};
ghost use Rattle.pdl_asm.specs.Assembly.{after_line as after_line_of, after_operation as after_operation_of, label_of, with_label};
ghost use Rattle.pdl_asm.specs.Places.{IsNear};

use crate::line::{AssemblyLine, Operation};
use crate::whole::Whole;
use pdl_asm_table::{Dictionary, Table};
use pdl_kit::NoMemory;

// The place after an operation.
fn after_operation(table: &Table, place: &Whole, operation: &Operation) -> Whole
    requires { place.now ≤ℤ pos (10 ^ 39 + 10 ^ 38) }
    ensures value { result ≡ after_operation_of table.now place.now operation.now }
    ensures near { (count : ℕ) → IsNear count place.now → IsNear (count + 1) result }
{
    match operation {
        Operation::Nothing => place.copy(),
        Operation::At(number) => number.get().copy(),
        Operation::Word(_) => place.next(),
        Operation::Insn(name, _) => {
            if table.insn(name).is_some() {
                place.next()
            } else {
                place.copy()
            }
        }
    }
}

/// The place after a line.
pub fn after_line(table: &Table, place: &Whole, line: &Option<AssemblyLine>) -> Whole
    requires { place.now ≤ℤ pos (10 ^ 39 + 10 ^ 38) }
    ensures value { result ≡ after_line_of table.now place.now line.now }
    ensures near { (count : ℕ) → IsNear count place.now → IsNear (count + 1) result }
{
    match line {
        Some(line) => after_operation(table, place, &line.operation),
        None => place.copy(),
    }
}

/// Defines the label of a line at a place, if it has one that isn't defined.
pub fn define_label(
    labels: &mut Dictionary<Whole>,
    place: &Whole,
    line: &Option<AssemblyLine>,
) -> Result<(), NoMemory>
    ensures { OnOk result (labels.new ≡ with_label labels.old place.now (label_of line.now)) }
{
    if let Some(line) = line {
        if let Some(name) = &line.label {
            labels.define(name.clone()?, place.copy())?;
        }
    }
    Ok(())
}
