// Carries out the field engineers' four checks on both boards and on the pile, and says in plain words what it saw.

#![tactic(auto)]

use crate::scripts::{POSITIONS, WORD, evicted_at, wired_and_crowded, written_and_crowded};
use anyhow::anyhow;
use calls::Call;
use machines::machine::{Machine, Seen, run_on};
use rules::answer::{Answer, Kind, Reply};

mod scripts;

// with two frames a page is pushed out by two others
const FRAMES: u16 = 2;

// The calls run on a machine.
fn seen(rt: &HostRuntime, machine: Machine, calls: &[Call]) -> anyhow::Result<Seen> {
    let Some(seen) = run_on(rt.alloc(), machine, FRAMES, calls)? else {
        return Err(anyhow!("no such frame count"));
    };
    Ok(seen)
}

// How an accepted read or write went.
fn kind_of(reply: Option<Reply>) -> Option<Kind> {
    match reply {
        Some(Ok(Answer::Read(reading))) => Some(reading.report.kind),
        Some(Ok(Answer::Wrote(report))) => Some(report.kind),
        _ => None,
    }
}

// Prints how an access went, in words behind what it was.
fn show_way(rt: &HostRuntime, what: &str, reply: Option<Reply>) -> anyhow::Result<()> {
    match kind_of(reply) {
        Some(kind) => println!(rt; "  {what}: {kind}")?,
        None => println!(rt; "  {what}: no access")?,
    }
    Ok(())
}

// Whether an access was accepted and is a hit.
fn is_hit(reply: Option<Reply>) -> bool {
    kind_of(reply) == Some(Kind::Hit)
}

// Whether a read gave the word that was written.
fn gives_word(reply: Option<Reply>) -> bool {
    matches!(&reply, Some(Ok(Answer::Read(reading))) if reading.word == WORD)
}

// The reply that many places before the last one.
fn from_end(seen: &Seen, back: usize) -> Option<Reply> {
    let at = seen.replies.len().checked_sub(back)?.checked_sub(1)?;
    seen.replies.get(at).copied()
}

// Fill the translation tables, then read back a page that was written before.
fn check_written(rt: &HostRuntime, machine: Machine) -> anyhow::Result<bool> {
    let seen = seen(rt, machine, &written_and_crowded(rt.alloc())?)?;
    let crowded = from_end(&seen, 5);
    let evicted = from_end(&seen, 0);
    let kept = gives_word(crowded) && gives_word(evicted);
    show_way(rt, "written, crowded by 24 places, read back", crowded)?;
    show_way(rt, "pushed out by two pages, read back", evicted)?;
    println!(rt; "  both times the word that was written: {kept}")?;
    Ok(kept)
}

// Wire a driver's page, crowd its hash group, touch it.
fn check_wired(rt: &HostRuntime, machine: Machine) -> anyhow::Result<bool> {
    let seen = seen(rt, machine, &wired_and_crowded(rt.alloc())?)?;
    let read = from_end(&seen, 1);
    let write = from_end(&seen, 0);
    show_way(rt, "wired, crowded by 24 places, read", read)?;
    show_way(rt, "and written", write)?;
    Ok(is_hit(read) && is_hit(write))
}

// An eviction at every position of a store and its sync.
fn check_positions(rt: &HostRuntime, machine: Machine) -> anyhow::Result<bool> {
    // counted by hand: a run may fail, and a chain would need a list to count
    let mut kept = 0usize;
    for position in 0..POSITIONS {
        let seen = seen(rt, machine, &evicted_at(rt.alloc(), position)?)?;
        if gives_word(from_end(&seen, 0)) {
            kept = kept.saturating_add(1);
        }
    }
    println!(rt;
        "  pushed out at each of 5 positions around store and sync, word kept: {kept} times"
    )?;
    Ok(kept == POSITIONS)
}

// The checks of one machine.
fn check_machine(rt: &HostRuntime, machine: Machine) -> anyhow::Result<bool> {
    println!(rt; "{}", machine.name())?;
    let written = check_written(rt, machine)?;
    let wired = check_wired(rt, machine)?;
    let positions = check_positions(rt, machine)?;
    Ok(written && wired && positions)
}

// The loads of one run on a machine.
fn loads(rt: &HostRuntime, machine: Machine) -> anyhow::Result<u32> {
    Ok(
        seen(rt, machine, &written_and_crowded(rt.alloc())?)?
            .counts
            .loads,
    )
}

// One list of calls on each machine, its loads compared.
fn check_loads(rt: &HostRuntime) -> anyhow::Result<bool> {
    let x86 = loads(rt, Machine::X86)?;
    let powerpc = loads(rt, Machine::PowerPc)?;
    let pile = loads(rt, Machine::Pile)?;
    println!(rt; "loads of one run on the three: {x86} {powerpc} {pile}")?;
    Ok(x86 == powerpc && x86 == pile)
}

fn run(rt: &HostRuntime) -> anyhow::Result<()> {
    let mut kept = true;
    for machine in Machine::ALL {
        kept = check_machine(rt, machine)? && kept;
    }
    if check_loads(rt)? && kept {
        println!(rt; "carried out 4 checks on 3 machines: nothing was lost")?;
    } else {
        println!(rt; "carried out 4 checks on 3 machines: something was lost")?;
    }
    Ok(())
}

fn main(rt: HostRuntime) -> anyhow::Result<()> {
    run(&rt)
}
