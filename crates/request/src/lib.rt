// The mapping that the boards program is asked for, read from a line of text.

#![tactic(auto)]

pub mod request;
