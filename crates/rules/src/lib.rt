// The rules of the memory: its values, what each call answers and changes (specs/Rules.antt),
// runs of calls (specs/History.antt), and the law over every run (specs/Laws.antt), proved in proofs/.

#![tactic(auto)]

pub mod answer;
pub mod counts;
pub mod region;
