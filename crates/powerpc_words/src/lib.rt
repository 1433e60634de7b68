// The entries of the PowerPC's hashed page table: the fields of their words, and where the entry of a place may stand.
// specs/ has the fields, the hash, the searches, and the board's state with what each call answers and leaves; proofs/ their laws.

#![tactic(auto)]

pub mod fields;
pub mod hashing;
pub mod places;
pub mod search;
pub mod slot;
