//! What no row of tests/ can ask of the program: files and sinks that fail, and runs held against the machines of their pipes.
//!
//! It has tests alone, and nothing stands on it.
#![tactic(auto)]

#[cfg(test)]
mod asked;
#[cfg(test)]
mod cuts;
#[cfg(test)]
mod faults;
#[cfg(test)]
mod late;
#[cfg(test)]
mod lines;
#[cfg(test)]
mod machine;
#[cfg(test)]
mod random;
