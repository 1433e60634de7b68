// Shows one mapping on both boards: where it stands in the tables, what a read and a write leave in the words, and that a
// crowd of other pages drives it out while its frame stays modified.

#![tactic(auto)]

use crate::stop::Stop;
use crowd::outcome::Outcome;
use refusal::code::Refusal;
use refusal::pmap::PmapRefusal;
use request::request::Request;
use std::io;

mod hashed;
mod radix;
mod steps;
mod stop;

// The request on the first line of standard input; what is no text is refused as bad numbers are.
fn read_request(rt: &HostRuntime) -> Result<Request, PmapRefusal> {
    let mut line = String::new(rt.alloc());
    rt.read_line(&mut line).map_err(|_| PmapRefusal::Range)?;
    Request::parse(line.as_str())
}

fn show_end(rt: &HostRuntime, radix: Outcome, hashed: Outcome) -> io::Result<()> {
    let forgotten = u8::from(radix.forgotten) + u8::from(hashed.forgotten);
    let modified = u8::from(radix.modified) + u8::from(hashed.modified);
    println!(rt;
        "entered 1 place on 2 boards, crowded it out of {forgotten}, its frame is still modified on {modified}"
    )
}

fn show(rt: &HostRuntime) -> Result<(), Stop> {
    let request = read_request(rt)?;
    let Request {
        space,
        page,
        frame,
        protection,
    } = request;
    println!(rt; "space {space}, page {page}, frame {frame}, protection {protection}")?;
    let radix = radix::show(rt, request)?;
    let hashed = hashed::show(rt, request)?;
    show_end(rt, radix, hashed)?;
    Ok(())
}

fn show_refusal(rt: &HostRuntime, refusal: PmapRefusal) -> io::Result<()> {
    let code = refusal.code();
    println!(rt;
        "refused {code}: give space (0 to 3), page (0 to 262143), frame (0 to 255) and protection (1 or 3)"
    )
}

fn main(rt: HostRuntime) -> io::Result<()> {
    match show(&rt) {
        Ok(()) => Ok(()),
        Err(Stop::Output(error)) => Err(error),
        Err(Stop::Refused(refusal)) => show_refusal(&rt, refusal),
        Err(Stop::Memory) => println!(rt; "no memory for the tables"),
    }
}
