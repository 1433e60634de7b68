// Replays each trace of the folder that it is run in, and compares the text with the listing beside it, which the reference
// program wrote. The file `names` has the names of the traces, one to a line.

#![tactic(auto)]

use machines::text::replay_all;
use std::fs;

// Whether the replay of a trace gives its listing.
fn agrees(rt: &HostRuntime, name: &str) -> anyhow::Result<bool> {
    let heap = rt.alloc();
    let bytes = fs::read(rt, format!(in heap; "{name}.trace")?)?;
    let wanted = fs::read_to_string(rt, format!(in heap; "{name}.listing")?)?;
    let text = replay_all(heap, &bytes)?;
    Ok(text.as_str() == wanted.as_str())
}

fn run(rt: &HostRuntime) -> anyhow::Result<()> {
    let names = fs::read_to_string(rt, "names")?;
    // counted by hand: a replay may fail, and a chain would need a list to count
    let mut same = 0usize;
    let mut other = 0usize;
    for name in names.as_str().lines() {
        if agrees(rt, name)? {
            same = same.saturating_add(1);
        } else {
            other = other.saturating_add(1);
            println!(rt; "{name} differs")?;
        }
    }
    println!(rt; "replayed {same} traces as the reference does, {other} otherwise")?;
    Ok(())
}

fn main(rt: HostRuntime) -> anyhow::Result<()> {
    run(&rt)
}
