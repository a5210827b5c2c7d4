// A netlist of one stage, whose ports and commits were worked out by hand.

ghost use Rattle.std.specs.Prelude.{◌≡◌, ◌++◌, ◌∷◌, [], IfOk, OnOk};
ghost use Rattle.pdl_netrun.specs.Sample.{out, sample};

use pdl_image::read_image;
use pdl_kit::{MemInfo, Name, NoMemory, Seq};
use pdl_net::{Array, BinOp, Cell, Dir, Net, Netlist, Port, Reg, WritePort};
use pdl_net_needed::needed_part;
use pdl_netrun::Sim;
use std::alloc::Global;

fn output(
    alloc: Global,
    ports: &mut Seq<Port>,
    name: &[u8],
    width: u8,
    driver: Net,
) -> Result<(), NoMemory>
    ensures { OnOk result (ports.new ≡ ports.old ++ out name.now width driver ∷ []) }
{
    let name = Name::copy_of(alloc, name)?;
    let dir = Dir::Out(driver);
    ports.push(Port { name, width, dir })
}

// Its outputs, in their order.
fn put_outputs(alloc: Global, ports: &mut Seq<Port>) -> Result<(), NoMemory>
    requires { ports.old ≡ [] }
    ensures { OnOk result (ports.new ≡ sample.ports) }
{
    output(alloc, ports, b"v_0", 1, Net::Cell(0))?;
    output(alloc, ports, b"g_0", 1, Net::Cell(0))?;
    output(alloc, ports, b"c_m", 1, Net::Cell(3))?;
    output(alloc, ports, b"ca_m", 1, Net::Cell(5))?;
    output(alloc, ports, b"cd_m", 4, Net::Cell(7))?;
    output(alloc, ports, b"c2_m", 1, Net::Cell(8))?;
    output(alloc, ports, b"ca2_m", 1, Net::Cell(5))?;
    output(alloc, ports, b"cd2_m", 4, Net::Cell(9))?;
    output(alloc, ports, b"ended", 1, Net::Cell(0))?;
    output(alloc, ports, b"squash", 1, Net::Cell(4))
}

// Its array, with two write ports.
fn put_array(alloc: Global, arrays: &mut Seq<Array>) -> Result<(), NoMemory>
    requires { arrays.old ≡ [] }
    ensures { OnOk result (arrays.new ≡ sample.arrays) }
{
    let write = WritePort {
        enable: Net::Cell(3),
        addr: Net::Cell(5),
        value: Net::Cell(7),
    };
    let later = WritePort {
        enable: Net::Cell(8),
        addr: Net::Cell(5),
        value: Net::Cell(9),
    };
    let name = Name::copy_of(alloc, b"m")?;
    let writes = Seq::copy_of(alloc, &[write, later])?;
    let (width, depth) = (4, 2);
    arrays.push(Array {
        name,
        width,
        depth,
        writes,
    })
}

fn cells(alloc: Global) -> Result<Seq<Cell>, NoMemory>
    ensures { IfOk result (λ cs. cs ≡ sample.cells) }
{
    let odd = Net::Reg(0);
    Seq::copy_of(
        alloc,
        &[
            Cell::Const { width: 1, value: 1 },
            Cell::Const { width: 4, value: 1 },
            Cell::Bin(BinOp::Add, odd, Net::Cell(1)),
            Cell::Slice {
                a: odd,
                high: 0,
                low: 0,
            },
            Cell::Const { width: 1, value: 0 },
            Cell::Slice {
                a: odd,
                high: 1,
                low: 1,
            },
            Cell::Read {
                array: 0,
                addr: Net::Cell(5),
            },
            Cell::Bin(BinOp::Add, Net::Cell(6), odd),
            Cell::Bin(BinOp::And, Net::Cell(3), Net::Cell(5)),
            Cell::Bin(BinOp::Add, Net::Cell(7), Net::Cell(1)),
        ],
    )
}

// Its memory.
fn put_mem(alloc: Global, mems: &mut Seq<MemInfo>) -> Result<(), NoMemory>
    requires { mems.old ≡ [] }
    ensures { OnOk result (mems.new ≡ sample.mems) }
{
    let name = Name::copy_of(alloc, b"m")?;
    let (width, depth, delayed) = (4, 2, false);
    mems.push(MemInfo {
        name,
        width,
        depth,
        delayed,
    })
}

// All but its name.
fn put_parts(alloc: Global, net: &mut Netlist) -> Result<(), NoMemory>
    requires name { net.old.name ≡ sample.name }
    requires ports { net.old.ports ≡ [] }
    requires arrays { net.old.arrays ≡ [] }
    requires mems { net.old.mems ≡ [] }
    ensures { OnOk result (net.new ≡ sample) }
{
    put_outputs(alloc, &mut net.ports)?;
    put_array(alloc, &mut net.arrays)?;
    put_mem(alloc, &mut net.mems)?;
    let (width, reset, next) = (4, 1, Net::Cell(2));
    net.regs = Seq::copy_of(alloc, &[Reg { width, reset, next }])?;
    net.cells = cells(alloc)?;
    Ok(())
}

fn counter(alloc: Global) -> Result<Netlist, NoMemory>
    ensures { IfOk result (λ n. n ≡ sample) }
{
    let mut net = Netlist {
        name: Name::copy_of(alloc, b"sample")?,
        ports: Seq::new(alloc),
        regs: Seq::new(alloc),
        arrays: Seq::new(alloc),
        cells: Seq::new(alloc),
        mems: Seq::new(alloc),
    };
    put_parts(alloc, &mut net)?;
    Ok(net)
}

// Whether each cycle shows its sum, and commits it where the count is odd; of two commits to one address the second holds.
#[tactic(auto, using(pdl_netrun::proofs::Sample::samples))]
fn shows_sums(sim: &mut Sim<'_>) -> bool
    requires { sim.old.netlist ≡ sample }
{
    let is_still = (sim.port(0) == 0) & (sim.port(4) == 0);
    let is_silent = sim.commit(0).is_none() & sim.commit2(0).is_none();
    let mut agrees = is_still & is_silent & !sim.waited();
    for (sum, commit, second) in [
        (6, Some((0, 6)), None),
        (11, None, None),
        (12, Some((1, 12)), Some((1, 13))),
        (10, None, None),
        (11, Some((0, 11)), None),
        (3, None, None),
        (4, Some((1, 4)), Some((1, 5))),
    ] {
        sim.cycle(0);
        let is_shown = (sim.port(0) == 1) & (sim.port(4) == sum);
        let is_committed = (sim.commit(0) == commit) & (sim.commit2(0) == second);
        agrees = agrees & is_shown & is_committed & !sim.waited();
    }
    agrees
}

// Whether it has the widths and shows the sums that it should.
#[tactic(auto, using(pdl_netrun::proofs::Sample::samples))]
fn counts_and_commits(alloc: Global, net: &Netlist) -> bool
    requires { net.now ≡ sample }
{
    let width = net.width(Net::Cell(7));
    let text = b"image 1\nm 0 5\nm 1 9\n";
    let Ok(image) = read_image(alloc, net.mems.as_slice(), text) else {
        return false;
    };
    let Ok(mut sim) = Sim::new(alloc, net, &image) else {
        return false;
    };
    (width == 4) & shows_sums(&mut sim)
}

#[test]
fn sample_runs(rt: HostRuntime) -> Result<(), NoMemory> {
    let net = counter(rt.alloc())?;
    assert!(rt; counts_and_commits(rt.alloc(), &net));
    Ok(())
}

// Whether two registers are the same.
fn are_same(one: Reg, other: Reg) -> bool {
    (one.width == other.width) & (one.reset == other.reset) & (one.next == other.next)
}

// Whether two lists hold the same registers.
fn have_same(ones: &[Reg], others: &[Reg]) -> bool {
    (ones.len() == others.len())
        & ones
            .iter()
            .zip(others)
            .all(|(one, other)| are_same(*one, *other))
}

// Whether its part that is needed is the whole.
fn needs_all(alloc: Global, net: &Netlist) -> bool
    requires { net.now ≡ sample }
{
    match needed_part(alloc, net) {
        Ok(part) => (part.cells == net.cells)
            & have_same(part.regs.as_slice(), net.regs.as_slice()),
        Err(NoMemory) => false,
    }
}

#[test]
fn sample_is_needed(rt: HostRuntime) -> Result<(), NoMemory> {
    let net = counter(rt.alloc())?;
    assert!(rt; needs_all(rt.alloc(), &net));
    Ok(())
}
