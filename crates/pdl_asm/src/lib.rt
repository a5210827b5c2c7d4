//! The assembler: from a table of an instruction set and an assembly text to the text of an image.
//! The layer above may use `assemble`, whose answer is exactly what the definitions of `specs/` say of the text.
#![tactic(auto)]

pub mod asm_error;
pub mod assembler;
mod digits;
mod encode;
mod image;
mod line;
mod number;
mod operand;
mod operation;
mod place;
mod rules;
mod sign;
mod text;
mod values;
mod whole;
mod words;

pub use asm_error::AsmError;
pub use assembler::assemble;
