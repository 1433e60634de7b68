// What the calls of a memory do over a pmap: the definitions that their contracts cite, the lemmas that the calls keep what a memory
// keeps, and the loops over a pmap's pages and the counts that they share.

#![tactic(auto)]

pub mod counting;
pub mod outcome;
pub mod pages;
