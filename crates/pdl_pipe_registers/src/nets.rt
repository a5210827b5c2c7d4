// The nets of a stage.
use pdl_kit::Seq;
use pdl_law_parts::Mark;
use pdl_net::Net;
use pdl_pipe_exprs::Bits;
use pdl_pipe_lives::Needs;
use pdl_pipe_walk::{MarkNet, WalkNets};
use pdl_port::PortRegs;

/// What a register of a stage keeps of its thread: the value of a variable, a mark of a location, by its memory and the variable of its address, the ticket of a memory's lock, or an argument of the guess.
#[derive(Clone, Copy)]
pub enum Item {
    Var(usize),
    Mark { mark: Mark, mem: usize, var: usize },
    Ticket(usize),
    Guess(usize),
}

/// The registers of a stage: the first tells whether it holds a thread, and those of the items follow it, in order.
#[derive(Drop)]
pub struct StageRegs {
    pub valid: usize,
    pub items: Seq<Item>,
}

/// A stage: what it begins with, and its nets after its statements.
pub struct StageNets {
    pub regs: StageRegs,
    /// The variables by their numbers, as the stage keeps them.
    pub vars: Seq<Net>,
    /// The variables with the answers of this cycle, as the statements begin with them.
    pub begun: Seq<Net>,
    /// The marks of locations as the stage begins; of two entries of one mark of a location the first counts.
    pub marks: Seq<MarkNet>,
    /// The tickets by the numbers of their memories, the whole stage long.
    pub tickets: Seq<Net>,
    /// The arguments of the guess as the stage begins.
    pub guess: Seq<Net>,
    pub end: WalkNets,
}

// As the derive would, but by a call of its owners: docs/DECISIONS.md says why.
impl Drop for StageNets {
    fn drop(self) {
        let StageNets {
            regs: _,
            vars: _,
            begun: _,
            marks: _,
            tickets: _,
            guess: _,
            end: _,
        } = self;
    }
}

/// What all stages share: the bits, a zero of the width of each variable, the next ticket of each memory's lock, a bit that is 0 where it has none, and the ports of the memories that are read delayed.
#[derive(Drop)]
pub struct Shared<'a> {
    pub bits: Bits,
    pub zeros: Seq<Net>,
    pub next: Seq<Net>,
    pub ports: &'a [Option<PortRegs>],
}

/// The stages before one, the numbers of those that may lead to it, and what the threads of the pipe need.
#[derive(Clone, Copy)]
pub struct Earlier<'a> {
    pub stages: &'a [StageNets],
    pub ways: &'a [usize],
    pub needs: &'a Needs,
}
