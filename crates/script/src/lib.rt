// Traces as text that people write: a frame count, and a line for each call.
// specs/Whole.antt says what a text says; specs/Made.antt gives the text and the bytes of a trace.

#![tactic(auto)]

pub mod bytes;
pub mod parse;
pub mod text;
