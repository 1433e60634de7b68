// Driving a mapping out of a pmap by a crowd of other mappings, whatever the pmap is.
// specs/Crowd.antt says what is left of the modified frames, and what the answer tells.

#![tactic(auto)]

pub mod crowd;
pub mod outcome;
