// The memory: resident pages over any pmap.

#![tactic(auto)]

mod accesses;
pub mod calling;
mod dispatch;
pub mod making;
pub mod memory;
mod paging;
pub mod parts;
mod reaching;
mod regions;
mod syncing;
mod unwiring;
mod wiring;
