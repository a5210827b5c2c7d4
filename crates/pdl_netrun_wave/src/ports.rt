// The ports of a netlist that are dumped.
ghost use Rattle.std.specs.Prelude.{◌≡◌, IfOk};
ghost use Rattle.pdl_netrun_wave.specs.Dumped.{wave_ports as ports_of};

use pdl_kit::{Name, NoMemory};
use pdl_net::{Dir, Netlist};
use pdl_wave::WavePort;
use std::alloc::Global;

/// The output ports of a netlist, with their names and their widths in bits.
pub fn wave_ports(alloc: Global, net: &Netlist) -> Result<Vec<WavePort>, NoMemory>
    ensures { IfOk result (λ ports. ports.items ≡ ports_of net.now) }
{
    let mut ports = Vec::new(alloc);
    for port in net.ports.as_slice() {
        if let Dir::Out(_) = port.dir {
            let name = Name::copy_of(alloc, port.name.as_bytes())?;
            ports.push(WavePort {
                name,
                width: port.width,
            })?;
        }
    }
    Ok(ports)
}
