// A file in memory.
use pdl_kit::{Name, Seq};

/// A file in memory.
#[derive(Drop, Clone)]
pub struct MemFile {
    pub name: Name,
    pub bytes: Seq<u8>,
}
