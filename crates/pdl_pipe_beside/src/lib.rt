//! What stands beside the stages of a pipe as nets: the ports of delayed memories and the orders of forks, their registers and their steps.
//!
//! The layers above may use `lay_ports` and `lay_orders`, which make registers, `set_ports`, `set_orders` and `requests` round a `BesideRound`, the definitions in specs/, and the lemmas `Beside`, by which ports and orders are what the law of a netlist takes.
#![tactic(auto)]

pub mod asks;
pub mod ends;
mod free;
mod order_round;
mod orders;
pub mod outside;
mod port_round;
mod ports;

pub use ends::{BesideRound, Squashes, StageEnd};
pub use free::port_free;
pub use order_round::set_orders;
pub use orders::lay_orders;
pub use outside::{RequestNets, requests};
use pdl_net::Net;
pub use pdl_pipe_answers::read_delayed;
pub use port_round::set_ports;
pub use ports::lay_ports;

/// What comes from a delayed memory: whether its outstanding request is answered, 1 bit, and the word with which it is, of the memory's width.
#[derive(Clone, Copy)]
pub struct PortInput {
    pub reply: Net,
    pub word: Net,
}
