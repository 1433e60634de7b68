// The hashed page table as a pmap: its exact calls have the meaning that the pmap interface asks.
// specs/ says what the board's state holds and what the calls keep; proofs/ has the meaning of each exact call.

#![tactic(auto)]

pub mod hashed;
