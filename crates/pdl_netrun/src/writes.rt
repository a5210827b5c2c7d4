// The writes of a cycle.

ghost use Rattle.std.specs.Prelude.{◌≡◌, All};
ghost use Rattle.pdl_netrun.specs.Steps.{WriteFits, after_write, after_all, array_words};

/// A write port of an array, with the places of its nets in the list of values.
#[derive(Clone, Copy)]
pub struct PlannedWrite {
    pub array: usize,
    pub enable: u32,
    pub addr: u32,
    pub value: u32,
}

/// Does what a write port is told.
#[tactic(auto, using(crate::proofs::Words::written))]
fn write_word(port: PlannedWrite, values: &[u64], arrays: &mut [Vec<u64>])
    requires { WriteFits port values.now (array_words arrays.old) }
    ensures { array_words arrays.new ≡ after_write port values.now (array_words arrays.old) }
{
    if values[port.enable as usize] == 1 {
        let at = values[port.addr as usize];
        let value = values[port.value as usize];
        let words = &mut arrays[port.array];
        words[at as usize] = value;
    }
}

/// Does what all write ports are told, the later port of an array last.
#[tactic(auto, using(crate::proofs::Steps::writes))]
pub fn write_words(ports: &[PlannedWrite], values: &[u64], arrays: &mut [Vec<u64>])
    requires { All (λ p. WriteFits p values.now (array_words arrays.old)) ports.now }
    ensures { array_words arrays.new ≡ after_all ports.now values.now (array_words arrays.old) }
{
    for port in ports {
        write_word(*port, values, arrays);
    }
}
