//! What no row of tests/ can ask of the parts that run: netlists held against the machines of their pipes where memories answer late, what a sequential run and an accepted source tell, texts that netlists are given, and what generated runs are made of.
//!
//! It has tests alone, and nothing stands on it.
#![tactic(auto)]

#[cfg(test)]
mod delayed;
#[cfg(test)]
mod delayed_chances;
#[cfg(test)]
mod delayed_runs;
#[cfg(test)]
mod generated;
#[cfg(test)]
mod images;
#[cfg(test)]
mod plans;
#[cfg(test)]
mod threads;
#[cfg(test)]
mod verilog;
#[cfg(test)]
mod widths;
