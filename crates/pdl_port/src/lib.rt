//! The circuit of a delayed memory's port: whose request is outstanding, and for whom an answer is.
//!
//! The layers above may use the calls that emit its state, whether it is free and its step, and know their nets by the laws of `specs/Laws` alone. A place is one of the stages that follow the reading stage, by its position among them.
#![tactic(auto)]

mod free;
mod layout;
mod state;
mod step;

pub use free::emit_port_free;
use pdl_kit::Seq;
use pdl_net::Net;
pub use state::emit_port_state;
pub use step::emit_port_step;

/// What a port tells of one place.
#[derive(Clone, Copy)]
pub struct Answer {
    /// Whether the place's thread waits for no answer, 1 bit.
    pub answered: Net,
    /// Whether the answer that comes now is for it, 1 bit.
    pub given: Net,
    /// That answer, where it is; of the memory's width.
    pub value: Net,
}

/// The part of a circuit that a port is made of.
#[derive(Drop)]
pub struct PortRegs {
    /// Its registers, by number; they follow one another.
    pub regs: Seq<usize>,
    /// Whether the outstanding request is answered, 1 bit.
    pub reply: Net,
    /// The word with which it is answered, of the memory's width.
    pub word: Net,
    /// What it tells of each place.
    pub answers: Seq<Answer>,
}

/// What a cycle does to a port: of each place three nets of 1 bit.
#[derive(Drop)]
pub struct PortStep {
    /// Whether the thread that comes into the place makes a request.
    pub asked: Seq<Net>,
    /// Whether the thread of the place moves.
    pub moves: Seq<Net>,
    /// Whether the thread of the place is removed.
    pub removed: Seq<Net>,
}
