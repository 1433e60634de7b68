// The eight calls of the memory, as values: what a trace record spells and a run carries out.

#![tactic(auto)]

pub mod operation;
pub mod words;

#[derive(Clone, Copy, PartialEq, Eq, Debug)]
pub enum Call {
    Map {
        space: u8,
        page: u32,
        count: u16,
        object: u8,
        offset: u8,
        protection: u8,
    },
    Unmap {
        space: u8,
        page: u32,
    },
    Protect {
        space: u8,
        page: u32,
        protection: u8,
    },
    Read {
        space: u8,
        page: u32,
    },
    Write {
        space: u8,
        page: u32,
        word: u32,
    },
    Wire {
        space: u8,
        page: u32,
    },
    Unwire {
        space: u8,
        page: u32,
    },
    Sync {
        object: u8,
    },
}
