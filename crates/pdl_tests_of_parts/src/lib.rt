//! What no row of the program asks of its parts: faults of files and sinks, delay files, each lock alone and in a netlist, the circuits beside the stages, simulated netlists, flat forms as nets, and public calls that the program doesn't make.
//!
//! It has tests alone, and nothing stands on it.
#![tactic(auto)]

#[cfg(test)]
mod build_rows;
#[cfg(test)]
mod delay_rows;
pub mod drives;
#[cfg(test)]
mod flatnets_rows;
#[cfg(test)]
mod form_rows;
#[cfg(test)]
mod kit_rows;
#[cfg(test)]
mod lives_rows;
#[cfg(test)]
mod lock_rows;
#[cfg(test)]
mod locks;
#[cfg(test)]
mod netrun_rows;
#[cfg(test)]
mod path_rows;
#[cfg(test)]
mod pending_rows;
#[cfg(test)]
mod plan_rows;
#[cfg(test)]
mod sides;
#[cfg(test)]
mod stagenets_rows;
#[cfg(test)]
mod text_rows;
#[cfg(test)]
mod token_rows;
#[cfg(test)]
mod values_rows;
#[cfg(test)]
mod word_rows;
