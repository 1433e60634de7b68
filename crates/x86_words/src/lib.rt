// The table words of the x86-64 board, the walk over them, and the hardware's lookup.
// specs/ has the words bit by bit, the walk, and the board's state with what each call answers and leaves; proofs/ its laws.

#![tactic(auto)]

pub mod leaves;
pub mod lookup;
pub mod walk;
pub mod word;
