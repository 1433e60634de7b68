// What the memory keeps beside its pmap: regions, resident pages, frames, the backing store and the wired places.

#![tactic(auto, unfolding(rules::specs::Lists::first, rules::specs::Lists::place, rules::specs::Lists::any))]

pub mod changes;
pub mod lookups;
pub mod making;
pub mod searches;
pub mod table;
