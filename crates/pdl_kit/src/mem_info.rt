// A memory's declaration.
use crate::name::Name;

/// A memory as it is declared: its name, the bits of a word (1 to `WIDEST`), how many words it has, and whether its replies may be late.
#[derive(Drop, Clone)]
pub struct MemInfo {
    pub name: Name,
    pub width: u8,
    pub depth: u32,
    pub delayed: bool,
}
