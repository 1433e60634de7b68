// What a reply adds to the counts.
ghost use Rattle.std.specs.Prelude.{◌≡◌, ◌<◌, ◌≤◌, Ok};
ghost use Rattle.rules.specs.Rules.{added as added_by, evictions as evictions_in, savings as savings_in, stored_in};
ghost use Rattle.rules.specs.declared.answer.Answer.TheVariants.{Wrote};
ghost use Rattle.memory_meaning.specs.Ready.{Bounded};

use rules::answer::{Answer, Evicted, Kind, Reply, Report};
use rules::counts::Counts;

// How many pages were evicted.
fn evictions(evicted: Option<Evicted>) -> u32
    ensures { result ≡ evictions_in evicted }
{
    u32::from(evicted.is_some())
}

// How many of them were stored.
fn savings(evicted: Option<Evicted>) -> u32
    ensures { result ≡ savings_in evicted }
{
    u32::from(evicted.is_some_and(|page| page.stored))
}

// An accepted read or write.
fn accessed(n: &Counts, report: &Report) -> Counts
    requires { (Bounded n.now) × (n.now.calls < 1000000) }
    ensures { result ≡ added_by n.now (Ok (Wrote report.now)) }
{
    Counts {
        calls: n.calls + 1,
        hits: n.hits + u32::from(report.kind == Kind::Hit),
        soft: n.soft + u32::from(report.kind == Kind::Soft),
        hard: n.hard + u32::from(report.kind == Kind::Hard),
        loads: n.loads + u32::from(report.kind == Kind::Hard),
        evicted: n.evicted + evictions(report.evicted),
        stored: n.stored + savings(report.evicted),
        ..*n
    }
}

pub fn added(n: &Counts, reply: &Reply) -> Counts
    requires { (Bounded n.now) × ((n.now.calls < 1000000) × (stored_in reply.now ≤ 2048)) }
    ensures { result ≡ added_by n.now reply.now }
{
    match reply {
        Err(_) => Counts {
            calls: n.calls + 1,
            refused: n.refused + 1,
            ..*n
        },
        Ok(Answer::Done) => Counts {
            calls: n.calls + 1,
            ..*n
        },
        Ok(Answer::Read(reading)) => accessed(n, &reading.report),
        Ok(Answer::Wrote(report)) => accessed(n, report),
        Ok(Answer::Wired(wiring)) => Counts {
            calls: n.calls + 1,
            loads: n.loads + u32::from(wiring.loaded),
            evicted: n.evicted + evictions(wiring.evicted),
            stored: n.stored + savings(wiring.evicted),
            ..*n
        },
        Ok(Answer::Synced(stored)) => Counts {
            calls: n.calls + 1,
            stored: n.stored + *stored,
            ..*n
        },
    }
}
