//! The netlist of a pipe as signals, and how each part of it follows the pipe in a cycle: the stages and the outputs, round any locks by their laws alone, with what stands beside the stages as a parameter.
//!
//! The layers above may use the definitions of `specs/`, the steps of the law (a stage, a lock, the first state, the outputs) and, of `Establish`, what a compiler shows of each part; no function stands here, and one type, the marks of a location.
#![tactic(auto)]

/// What a stage keeps, in one bit each, of a location that its thread reserves for writing.
#[derive(Clone, Copy)]
pub enum Mark {
    /// The location is reserved and not yet released.
    Held,
    /// The reservation is the thread's second one of its memory.
    Late,
}
