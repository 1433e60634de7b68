// The calls of each check.
use calls::Call;
use std::alloc::{AllocError, Global};

// the page that is watched, in space 0
pub const WATCHED: u32 = 16;

// the word that is written to it
pub const WORD: u32 = 7;

// Other places that want room where the watched page's entry stands: 1,024 pages apart they share both hash groups, which have
// sixteen slots, and each wants a leaf table of its own, of which there are ten.
pub const CROWD: u32 = 24;

const STRIDE: u32 = 1_024;

fn map(page: u32, object: u8, offset: u8) -> Call {
    Call::Map {
        space: 0,
        page,
        count: 1,
        object,
        offset,
        protection: 3,
    }
}

fn read(page: u32) -> Call {
    Call::Read { space: 0, page }
}

fn write(page: u32, word: u32) -> Call {
    Call::Write {
        space: 0,
        page,
        word,
    }
}

// Maps the other places, all to one page of object 1, and reads each.
fn push_crowd(calls: &mut Vec<Call>) -> Result<(), AllocError> {
    for k in 0..CROWD {
        let page = WATCHED + STRIDE * (k + 1);
        calls.push(map(page, 1, 0))?;
        calls.push(read(page))?;
    }
    Ok(())
}

// Maps two pages of object 2 and reads them, so that with two frames every other page goes.
fn push_eviction(calls: &mut Vec<Call>) -> Result<(), AllocError> {
    calls.push(map(0, 2, 0))?;
    calls.push(map(1, 2, 1))?;
    calls.push(read(0))?;
    calls.push(read(1))?;
    Ok(())
}

// Writes the page, crowds it, reads it back, has it evicted, and reads it back.
pub fn written_and_crowded(heap: Global) -> Result<Vec<Call>, AllocError> {
    let mut calls = Vec::new(heap);
    calls.push(map(WATCHED, 0, 0))?;
    calls.push(write(WATCHED, WORD))?;
    push_crowd(&mut calls)?;
    calls.push(read(WATCHED))?;
    push_eviction(&mut calls)?;
    calls.push(read(WATCHED))?;
    Ok(calls)
}

// Wires the page, crowds it, and touches it.
pub fn wired_and_crowded(heap: Global) -> Result<Vec<Call>, AllocError> {
    let mut calls = Vec::new(heap);
    calls.push(map(WATCHED, 0, 0))?;
    calls.push(Call::Wire {
        space: 0,
        page: WATCHED,
    })?;
    push_crowd(&mut calls)?;
    calls.push(read(WATCHED))?;
    calls.push(write(WATCHED, WORD))?;
    Ok(calls)
}

// how many positions there are for an eviction in a store and its sync
pub const POSITIONS: usize = 5;

// Stores to the page, reads it, syncs its object and reads it again, with an eviction at one position.
pub fn evicted_at(heap: Global, position: usize) -> Result<Vec<Call>, AllocError> {
    let mut calls = Vec::new(heap);
    calls.push(map(WATCHED, 0, 0))?;
    let steps = [
        write(WATCHED, WORD),
        read(WATCHED),
        Call::Sync { object: 0 },
        read(WATCHED),
    ];
    for (at, step) in steps.iter().enumerate() {
        if at == position {
            push_eviction(&mut calls)?;
        }
        calls.push(*step)?;
    }
    if position >= steps.len() {
        push_eviction(&mut calls)?;
    }
    calls.push(read(WATCHED))?;
    Ok(calls)
}
