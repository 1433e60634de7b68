// The hashed page table of the 32-bit PowerPC (OEA), word for word, as a board that holds mappings.
// powerpc_words/specs says what each call answers and what it leaves of the whole state; every call promises exactly that.

#![tactic(auto)]

pub mod board;
mod calls;
mod entries;
pub mod making;
mod mapping;
mod search;
mod sweeps;
