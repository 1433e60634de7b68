// A pmap that keeps only its wired mappings and the latest entry: the least that the meaning of a pmap allows.

#![tactic(auto)]

pub mod entry;
pub mod law;
pub mod slots;
pub mod table;
