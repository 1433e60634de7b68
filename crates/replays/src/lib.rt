// Replaying a trace: the calls that its records spell, what was refused with its record number, and the text of a block.

#![tactic(auto)]

pub mod block;
pub mod dirty;
pub mod lines;
pub mod refused;
pub mod selected;
