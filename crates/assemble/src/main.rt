// Reads a trace that is written as text from standard input, and writes its bytes to standard output.

#![tactic(auto)]

use anyhow::anyhow;
use script::bytes::trace_bytes;
use script::parse::{ParseError, parse};
use std::io::{Read, Write};

fn main(rt: HostRuntime) -> anyhow::Result<()> {
    let heap = rt.alloc();
    let mut text = Vec::new(heap);
    rt.stdin().read_to_end(&mut text)?;
    let script = match parse(heap, &text) {
        Ok(script) => script,
        Err(ParseError::Text(fault)) => {
            rt.eprintln(fault)?;
            return Err(anyhow!("the text is no trace"));
        }
        Err(ParseError::Memory(_)) => return Err(anyhow!("no memory")),
    };
    let bytes = trace_bytes(heap, script.frames, &script.calls).map_err(|_| anyhow!(
        "no trace can be made of the text"
    ))?;
    rt.stdout().write_all(&bytes)?;
    Ok(())
}
