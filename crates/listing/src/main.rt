// Reads a trace from standard input and prints its records in words.

#![tactic(auto)]

use std::io;
use std::io::Read;
use trace::reader::ENOUGH;

mod text;

fn main(rt: HostRuntime) -> io::Result<()> {
    let heap = rt.alloc();
    let mut bytes = Vec::new(heap);
    rt.stdin().take(ENOUGH).read_to_end(&mut bytes)?;
    let text = text::listing(heap, &bytes)?;
    rt.print(text.as_str())
}
