// The pmap: what stands between the memory and a machine's translation tables.
// specs/Meaning.antt says what a pmap holds and what each call does; an implementation may forget unwired mappings.

#![tactic(auto)]

pub mod access;
pub mod frame;
pub mod interface;
pub mod place;
pub mod range;
