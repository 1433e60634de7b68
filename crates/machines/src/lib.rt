// The three machines of a replay, runs of calls on them, and the whole text of a replay. The contract of `replay_all` has the law
// over every run for the three runs, that they agree after each call, and the text.

#![tactic(auto)]

pub mod machine;
pub mod text;
