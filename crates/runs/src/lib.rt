// Runs: a memory is made new and given a list of calls. The contract of `run` has the law over every run.

#![tactic(auto)]

pub mod run;
