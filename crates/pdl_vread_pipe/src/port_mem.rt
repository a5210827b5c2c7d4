// A memory as its ports tell it.
ghost use Rattle.std.specs.Prelude.{◌≡◌};

use pdl_kit::Name;
use std::marker::Model;

/// A memory as its ports tell it: its name, the bits of a word, the bits of an address, and whether a cycle may commit two of its writes.
#[derive(Drop)]
pub struct PortMem {
    name: Name,
    width: u8,
    bits: u8,
    twice: bool,
}

impl Model for PortMem {
    ghost use Rattle.pdl_net.specs.Pipe.{PortMem as Mem};

    ghost Value = { Mem };

    ghost view = { λ m. record { name = m.name; width = m.width; bits = m.bits; twice = m.twice } };
}

impl PortMem {
    /// A memory of these.
    pub fn new(name: Name, width: u8, bits: u8, twice: bool) -> PortMem
        ensures { result ≡ record { name = name; width = width; bits = bits; twice = twice } }
    {
        PortMem {
            name,
            width,
            bits,
            twice,
        }
    }

    /// Its name.
    pub fn name(&self) -> &Name
        ensures { result.now ≡ self.now.name }
    {
        &self.name
    }

    /// The bits of a word.
    pub fn width(&self) -> u8
        ensures { result ≡ self.now.width }
    {
        self.width
    }

    /// The bits of an address.
    pub fn bits(&self) -> u8
        ensures { result ≡ self.now.bits }
    {
        self.bits
    }

    /// Whether a cycle may commit two of its writes.
    pub fn commits_twice(&self) -> bool
        ensures { result ≡ self.now.twice }
    {
        self.twice
    }
}
