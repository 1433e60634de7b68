// Prints how many calls of access, enter and drop a second each board takes.

#![tactic(auto)]

use crate::timing::show;
use anyhow::anyhow;
use powerpc_pmap::hashed::Hashed;
use std::env;
use x86_pmap::meaning::X86;

mod timing;

// The number of calls that the first argument gives.
fn calls_asked(rt: &HostRuntime) -> anyhow::Result<Option<u32>> {
    let Some(word) = env::args(rt)?.nth(1) else {
        return Ok(None);
    };
    Ok(word.parse::<u32>().ok())
}

fn run(rt: &HostRuntime) -> anyhow::Result<()> {
    let Some(calls) = calls_asked(rt)? else {
        println!(rt; "usage: bench CALLS")?;
        return Ok(());
    };
    let heap = rt.alloc();
    let Ok(mut radix) = X86::new(heap, vec![in heap; 0; x86::board::WORDS]?) else {
        return Err(anyhow!("no memory for the x86-64 board"));
    };
    show(rt, "x86-64", &mut radix, calls)?;
    let Ok(mut hashed) = Hashed::new(heap, vec![in heap; 0; powerpc::board::WORDS]?) else {
        return Err(anyhow!("no memory for the PowerPC board"));
    };
    show(rt, "PowerPC", &mut hashed, calls)
}

fn main(rt: HostRuntime) -> anyhow::Result<()> {
    run(&rt)
}
