// Reads a trace from standard input, replays it on an x86-64 board, a PowerPC board and a pile of layers over both, and prints
// a block for each.

#![tactic(auto)]

use machines::text::replay_all;
use std::io;
use std::io::Read;
use trace::reader::ENOUGH;

fn main(rt: HostRuntime) -> io::Result<()> {
    let heap = rt.alloc();
    let mut bytes = Vec::new(heap);
    rt.stdin().take(ENOUGH).read_to_end(&mut bytes)?;
    let text = replay_all(heap, &bytes)?;
    rt.print(text.as_str())
}
