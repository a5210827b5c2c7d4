// Marks what is needed, from the outputs and write ports on.
ghost use Rattle.std.specs.Prelude.{◌≡◌, [], ◌∷◌, flat_map, IfOk, OnOk};
ghost use Rattle.pdl_word.specs.Each.{Each};
ghost use Rattle.pdl_net.specs.Circuit.{circuit_of};
ghost use Rattle.pdl_net.specs.Meaning.{IsThere};
ghost use Rattle.pdl_net.specs.Well.{IsWell};
ghost use Rattle.pdl_net_needed.specs.Needed.{reads_of, shown_by, read_by, written_from, used_outside, sources, KeepsNeeded};
ghost use Rattle.pdl_net_needed.specs.Marks.{IsWithin, none_kept};
ghost use Rattle.pdl_net_needed.specs.Marking.{Adds, IsMarking, TakesLast, begun};

use crate::marks::Marks;
use pdl_kit::NoMemory;
use pdl_net::{Array, Cell, Dir, Net, Netlist, Port, WritePort};
use std::alloc::Global;
use std::marker::Model;

/// The marks that are set, and the marked nets whose sources are still to be marked.
#[derive(Drop)]
struct Marking {
    marks: Marks,
    waiting: Vec<Net>,
}

impl Model for Marking {
    ghost use Rattle.pdl_net_needed.specs.Marking.{Work};

    ghost Value = { Work };

    ghost view = { λ m. record { kept = m.marks; waiting = m.waiting.items } };
}

/// Marks of the needed registers and cells.
pub fn needed_marks(alloc: Global, n: &Netlist) -> Result<Marks, NoMemory>
    requires { IsWell (circuit_of n.now) }
    ensures { IfOk result (λ m. KeepsNeeded (circuit_of n.now) m) }
{
    let mut marking = Marking::new(alloc, n)?;
    marking.need_ports(n.ports.as_slice())?;
    marking.need_arrays(n.arrays.as_slice())?;
    marking.close(n)?;
    Ok(marking.into_marks())
}

impl Marking {
    fn new(alloc: Global, n: &Netlist) -> Result<Marking, NoMemory>
        ensures { IfOk result (λ m. m ≡ begun (circuit_of n.now)) }
    {
        let marks = Marks::none(alloc, n.regs.len(), n.cells.len())?;
        Ok(Marking {
            marks,
            waiting: Vec::new(alloc),
        })
    }

    fn into_marks(self) -> Marks
        ensures { result ≡ self.kept }
    {
        self.marks
    }

    /// Marks a net.
    #[tactic(auto, using(crate::proofs::AddedMarks::adds_marked))]
    fn need(&mut self, net: Net) -> Result<(), NoMemory>
        requires { IsWithin self.old.kept net }
        ensures { OnOk result (Adds self.old self.new (net ∷ [])) }
    {
        if self.marks.has(net) {
            return Ok(());
        }
        self.marks.add(net);
        self.waiting.push(net)?;
        Ok(())
    }

    #[tactic(auto, using(crate::proofs::AddedMarks::firsts))]
    fn need_reads(&mut self, cell: Cell) -> Result<(), NoMemory>
        requires { Each (IsWithin self.old.kept) (reads_of cell) }
        ensures { OnOk result (Adds self.old self.new (reads_of cell)) }
    {
        match cell {
            Cell::Const { .. } => Ok(()),
            Cell::Not(a) => self.need(a),
            Cell::Bin(_, a, b) => self.need_two(a, b),
            Cell::Mux(choice, a, b) => {
                self.need(choice)?;
                self.need_two(a, b)?;
                Ok(())
            }
            Cell::Slice { a, .. } => self.need(a),
            Cell::Cat(a, b) => self.need_two(a, b),
            Cell::Rep { a, .. } => self.need(a),
            Cell::Read { addr, .. } => self.need(addr),
        }
    }

    #[tactic(auto, using(crate::proofs::AddedMarks::firsts))]
    fn need_two(&mut self, a: Net, b: Net) -> Result<(), NoMemory>
        requires { Each (IsWithin self.old.kept) (a ∷ b ∷ []) }
        ensures { OnOk result (Adds self.old self.new (a ∷ b ∷ [])) }
    {
        self.need(a)?;
        self.need(b)?;
        Ok(())
    }

    /// Marks what a net takes its value from.
    #[tactic(auto, using(crate::proofs::AddedMarks::adds_none, pdl_net::proofs::Widths::nets))]
    fn need_sources(&mut self, n: &Netlist, net: Net) -> Result<(), NoMemory>
        requires there { IsThere (circuit_of n.now) net }
        requires within { Each (IsWithin self.old.kept) (sources (circuit_of n.now) net) }
        ensures { OnOk result (Adds self.old self.new (sources (circuit_of n.now) net)) }
    {
        match net {
            Net::Input(_) => Ok(()),
            Net::Reg(r) => self.need(n.regs.as_slice()[r].next),
            Net::Cell(k) => self.need_reads(n.cells.as_slice()[k]),
        }
    }

    #[tactic(auto, using(crate::proofs::AddedMarks::adds_none))]
    fn need_shown(&mut self, dir: Dir) -> Result<(), NoMemory>
        requires { Each (IsWithin self.old.kept) (shown_by dir) }
        ensures { OnOk result (Adds self.old self.new (shown_by dir)) }
    {
        match dir {
            Dir::In => Ok(()),
            Dir::Out(net) => self.need(net),
        }
    }

    /// Marks what the outputs show.
    #[tactic(auto, using(crate::proofs::AddedMarks::lists))]
    fn need_ports(&mut self, ports: &[Port]) -> Result<(), NoMemory>
        requires { Each (IsWithin self.old.kept) (flat_map (λ p. shown_by p.dir) ports.now) }
        ensures { OnOk result (Adds self.old self.new
            (flat_map (λ p. shown_by p.dir) ports.now)) }
    {
        for i in 0..ports.len() {
            let port = &ports[i];
            self.need_shown(port.dir)?;
        }
        Ok(())
    }

    #[tactic(auto, using(crate::proofs::AddedMarks::firsts))]
    fn need_write(&mut self, port: WritePort) -> Result<(), NoMemory>
        requires { Each (IsWithin self.old.kept) (read_by port) }
        ensures { OnOk result (Adds self.old self.new (read_by port)) }
    {
        self.need(port.enable)?;
        self.need_two(port.addr, port.value)?;
        Ok(())
    }

    #[tactic(auto, using(crate::proofs::AddedMarks::lists))]
    fn need_writes(&mut self, ports: &[WritePort]) -> Result<(), NoMemory>
        requires { Each (IsWithin self.old.kept) (flat_map read_by ports.now) }
        ensures { OnOk result (Adds self.old self.new (flat_map read_by ports.now)) }
    {
        for i in 0..ports.len() {
            self.need_write(ports[i])?;
        }
        Ok(())
    }

    /// Marks what the write ports read.
    #[tactic(auto, using(crate::proofs::AddedMarks::lists))]
    fn need_arrays(&mut self, arrays: &[Array]) -> Result<(), NoMemory>
        requires { Each (IsWithin self.old.kept) (flat_map written_from arrays.now) }
        ensures { OnOk result (Adds self.old self.new (flat_map written_from arrays.now)) }
    {
        for i in 0..arrays.len() {
            let array = &arrays[i];
            self.need_writes(array.writes.as_slice())?;
        }
        Ok(())
    }

    /// The last of the nets that are still to be looked at, which goes.
    fn next_waiting(&mut self) -> Option<Net>
        ensures { TakesLast self.old self.new result }
    {
        self.waiting.pop()
    }

    /// Marks the sources of all that is marked.
    #[tactic(auto, using(crate::proofs::MarkedNets::taken))]
    fn close(&mut self, n: &Netlist) -> Result<(), NoMemory>
        requires well { IsWell (circuit_of n.now) }
        requires begun { IsMarking (circuit_of n.now) self.old }
        ensures { OnOk result (KeepsNeeded (circuit_of n.now) self.new.kept) }
    {
        while let Some(net) = self.next_waiting() {
            self.need_sources(n, net)?;
        }
        Ok(())
    }
}
