// Layers over any pmap: each is a pmap itself, so any pile of them is one.

#![tactic(auto)]

pub mod offset;
pub mod replica;
