// A text of bytes cut into lines and into words, and the decimal numbers that words write.

#![tactic(auto)]

pub mod cut;
pub mod numeral;
