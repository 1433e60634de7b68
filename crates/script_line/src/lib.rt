// One line of a trace that is written as text: the frame count, or a call.
// specs/Form.antt gives the form of a line by its words.

#![tactic(auto)]

pub mod fault;
pub mod field;
pub mod line;
