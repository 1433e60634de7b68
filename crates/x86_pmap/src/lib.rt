// The x86-64 board as a pmap.

#![tactic(auto)]

pub mod meaning;
