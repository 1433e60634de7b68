// The x86-64 board: page tables of four levels in 8,192 words, walked as the hardware walks them.
// x86_words/specs/State.antt says what the board holds after each call: every word, every mark and the counter.

#![tactic(auto)]

pub mod board;
pub mod cases;
