// The kind of a cell.

ghost use Rattle.std.specs.Prelude.{◌≡◌};
ghost use Rattle.pdl_netrun.specs.Kinds.{cell_kind, operator_kind};

use crate::operation::CellKind;
use pdl_net::{BinOp, Cell};

/// The kind of a cell.
pub fn kind_of(cell: Cell) -> CellKind
    ensures { result ≡ cell_kind cell }
{
    match cell {
        Cell::Const { width: _, value: _ } => CellKind::Constant,
        Cell::Not(_) => CellKind::Complement,
        Cell::Bin(op, _, _) => kind_of_operator(op),
        Cell::Mux(_, _, _) => CellKind::Choose,
        Cell::Slice {
            a: _,
            high: _,
            low: _,
        } => CellKind::Slice,
        Cell::Cat(_, _) => CellKind::Join,
        Cell::Rep { count: _, a: _ } => CellKind::Repeat,
        Cell::Read { array: _, addr: _ } => CellKind::Look,
    }
}

/// The kind of an operator's cells.
fn kind_of_operator(op: BinOp) -> CellKind
    ensures { result ≡ operator_kind op }
{
    match op {
        BinOp::Add => CellKind::Add,
        BinOp::Sub => CellKind::Sub,
        BinOp::Mul => CellKind::Mul,
        BinOp::And => CellKind::And,
        BinOp::Or => CellKind::Or,
        BinOp::Xor => CellKind::Xor,
        BinOp::Eq => CellKind::Equal,
        BinOp::Ne => CellKind::Differ,
        BinOp::Lt => CellKind::Less,
        BinOp::Shl => CellKind::ShiftLeft,
        BinOp::Shr => CellKind::ShiftRight,
    }
}
