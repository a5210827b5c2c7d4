//! What stands beside the stages of a pipe of the whole language, in signals: the ports of delayed memories, the orders of forks, squashes; and the netlist of such a pipe, by the laws of these circuits.
#![tactic(auto)]
