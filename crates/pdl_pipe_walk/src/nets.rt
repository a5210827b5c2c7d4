// The nets of a stage on the way through its statements.
use pdl_kit::Seq;
use pdl_law_parts::Mark;
use pdl_net::Net;

/// A mark of a location, by its memory and the variable of its address: whether the location has it, 1 bit.
#[derive(Clone, Copy)]
pub struct MarkNet {
    pub mark: Mark,
    pub mem: usize,
    pub var: usize,
    pub net: Net,
}

/// A reservation for writing: the variable of its location, whether it is made, 1 bit, and its address.
#[derive(Clone, Copy)]
pub struct ReserveNet {
    pub mem: usize,
    pub var: usize,
    pub on: Net,
    pub addr: Net,
}

/// A write: the variable of its location, whether it is made, 1 bit, and its value.
#[derive(Clone, Copy)]
pub struct PutNet {
    pub mem: usize,
    pub var: usize,
    pub on: Net,
    pub value: Net,
}

/// A release of a write reservation: whether it is made, 1 bit.
#[derive(Clone, Copy)]
pub struct LettingNet {
    pub mem: usize,
    pub on: Net,
}

/// A request of a delayed memory: whether it is made, 1 bit, its address, and the variable that the answer binds.
#[derive(Clone, Copy)]
pub struct AskNet {
    pub mem: usize,
    pub var: usize,
    pub on: Net,
    pub addr: Net,
}

/// A write of an advisory memory: whether it is made, 1 bit, its address and its value.
#[derive(Clone, Copy)]
pub struct AdvisingNet {
    pub mem: usize,
    pub on: Net,
    pub addr: Net,
    pub value: Net,
}

/// A call: whether it is made, 1 bit, and its arguments.
#[derive(Drop)]
pub struct BirthNet {
    pub on: Net,
    pub args: Seq<Net>,
}

/// A stage on the way through its statements: its variables by their numbers, the marks of its locations, whether the locks let its thread move so far (1 bit), and what it does.
pub struct WalkNets {
    pub vars: Vec<Net>,
    /// Of two entries of one mark of a location the first counts; a location has no mark without entry.
    pub marks: Vec<MarkNet>,
    pub ready: Net,
    pub reserves: Seq<ReserveNet>,
    pub puts: Seq<PutNet>,
    pub lettings: Seq<LettingNet>,
    /// The latest first.
    pub births: Vec<BirthNet>,
    pub asks: Seq<AskNet>,
    pub advises: Seq<AdvisingNet>,
    /// The arguments of the guess.
    pub guess: Seq<Net>,
    /// Whether a verify fails or an update changes the guess, 1 bit.
    pub fails: Net,
    /// Whether the thread waits at a barrier, 1 bit.
    pub barrier: Net,
}

// As the derive would, but by a call of its owners: docs/DECISIONS.md says why.
impl Drop for WalkNets {
    fn drop(self) {
        let WalkNets {
            vars: _,
            marks: _,
            ready: _,
            reserves: _,
            puts: _,
            lettings: _,
            births: _,
            asks: _,
            advises: _,
            guess: _,
            fails: _,
            barrier: _,
        } = self;
    }
}
