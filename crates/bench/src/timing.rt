// The timing of each kind of call, on any pmap.
ghost use Rattle.std.specs.Prelude.{◌≡◌, ℕ, ◌*◌, ◌/◌, ◌<◌};

use anyhow::anyhow;
use pmap::access::Access;
use pmap::interface::Pmap;
use pmap::range::PAGES;
use std::time::Instant;

// The pages that accesses go round.
const ROUND: u32 = 64;

// The calls in a second, of calls that took that many nanoseconds.
fn rate(calls: u32, nanos: u128) -> u128
    ensures { 0 < nanos → result ≡ calls * 1000000000 / nanos }
{
    if nanos == 0 {
        return 0;
    }
    u128::from(calls) * 1_000_000_000 / nanos
}

// The calls in a second, where each call is a step on the pmap, with its number.
fn rate_of<P: Pmap, F: Fn(&mut P, u32) -> anyhow::Result<()>>(
    rt: &HostRuntime,
    pmap: &mut P,
    calls: u32,
    step: F,
) -> anyhow::Result<u128>
    requires kept { P.kept pmap.old }
    requires callable { (p : _) (call : ℕ) → P.kept p.now → F.pre step p call }
    requires keeps { (p : _) (call : ℕ) (r : _) (q : _) → P.kept p.now → F.post step p call r q → P.kept q.now }
    ensures { P.kept pmap.new }
{
    let start = Instant::now(rt)?;
    for call in 0..calls {
        step(pmap, call)?;
    }
    Ok(rate(calls, start.elapsed(rt)?.as_nanos()))
}

// Prints the three figures of a pmap.
pub fn show<P: Pmap>(rt: &HostRuntime, name: &str, pmap: &mut P, calls: u32) -> anyhow::Result<()>
    requires { P.kept pmap.old }
{
    // reads and writes in turn, all of them hits
    let access = |pmap: &mut P, call: u32| match pmap.access(0, call % ROUND, call % 2 == 0) {
        Ok(Access::Hit(_)) => Ok(()),
        _ => Err(anyhow!("an access missed")),
    };
    // one page after the other, each frame in turn
    let enter = |pmap: &mut P, call: u32| {
        let frame = (call % 256) as u16;
        pmap.enter(0, call % PAGES, frame, 3, false)
            .map_err(|_| anyhow!("an enter was refused"))
    };
    // each frame in turn
    let drop_frame = |pmap: &mut P, call: u32| {
        pmap.drop_frame((call % 256) as u16)
            .map_err(|_| anyhow!("a drop was refused"))
    };
    rate_of(rt, pmap, ROUND, enter)?;
    let access = rate_of(rt, pmap, calls, access)?;
    let enter = rate_of(rt, pmap, calls, enter)?;
    let drop = rate_of(rt, pmap, calls, drop_frame)?;
    println!(rt; "{name}: calls a second: access {access}, enter {enter}, drop {drop}")?;
    Ok(())
}
