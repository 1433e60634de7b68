// Tables as numbered slots: what both boards share of the proof that they are pmaps.
// The lemmas are in proofs/, and the boards cite them.

#![tactic(auto)]

pub mod word;
