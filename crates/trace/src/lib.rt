// Traces: files of calls to a memory, read record by record, and made.
// specs/Format.antt gives the format by arithmetic on the bytes; every promise here cites it.

#![tactic(auto)]

pub mod encode;
mod fields;
pub mod listed;
pub mod reader;
pub mod record;
pub mod words;
