// The numbered refusals of the core: what is wrong with a file, a record or a call.
// specs/Codes.antt gives each its number and its layer, once for all; every promise cites it.

#![tactic(auto)]

pub mod code;
pub mod file;
pub mod making;
pub mod memory;
pub mod pmap;
