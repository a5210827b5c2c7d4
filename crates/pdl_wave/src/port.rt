// The ports that a dump declares.
use pdl_kit::Name;

/// An output port: its name, and its width in bits, 1 to 128.
#[derive(Drop)]
pub struct WavePort {
    pub name: Name,
    pub width: u8,
}
