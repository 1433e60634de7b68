// The lines of a block.
ghost use Rattle.std.specs.Prelude.{◌≡◌, ◌+◌, ◌<◌, ◌++◌, drop, string_bytes, OnOk};
ghost use Rattle.std.specs.Slice.Iter.{iter_rest};
ghost use Rattle.replays.specs.Blocks.{outcome_line, next_reply, used, outcome_of, lines_of, access_counts, page_counts};

use crate::refused::{ReplayRefusal, outcome};
use rules::answer::{Answer, Reply};
use rules::counts::Counts;
use std::alloc::AllocError;
use std::fmt::Write;
use std::slice::Iter;
use trace::record::Entry;

// Puts the line of a record behind a text, if it has one.
fn push_line(
    text: &mut String,
    number: u32,
    became: &Result<Answer, ReplayRefusal>,
) -> Result<(), AllocError>
    ensures { OnOk result (string_bytes text.new ≡ string_bytes text.old ++ outcome_line number became.now) }
{
    match became {
        Ok(Answer::Read(reading)) => {
            let word = reading.word;
            writeln!(text, "read {number} {word}")
        }
        Ok(_) => Ok(()),
        Err(refusal) => writeln!(text, "refused {refusal}"),
    }
}

// What became of an entry. A record that was turned away has none of the replies, each other one has the next.
fn next_outcome(item: &Entry, replies: &mut Iter<Reply>) -> Result<Answer, ReplayRefusal>
    ensures outcome { result ≡ outcome_of item.now (next_reply (iter_rest replies.old)) }
    ensures rest { iter_rest replies.new ≡ drop (used item.now.content) (iter_rest replies.old) }
{
    let reply = match item.content {
        Ok(_) => replies.next().copied().unwrap_or(Ok(Answer::Done)),
        Err(_) => Ok(Answer::Done),
    };
    outcome(item, reply)
}

// Puts the line of each record behind a text.
pub fn push_lines(text: &mut String, entries: &[Entry], replies: &[Reply]) -> Result<(), AllocError>
    ensures { OnOk result (string_bytes text.new ≡ string_bytes text.old ++ lines_of entries.now replies.now) }
{
    let mut left = replies.iter();
    for item in entries {
        let became = next_outcome(item, &mut left);
        push_line(text, item.number, &became)?;
    }
    Ok(())
}

// Puts the counts of accesses behind a text.
pub fn push_accesses(text: &mut String, n: &Counts) -> Result<(), AllocError>
    requires { n.now.hits + n.now.soft + n.now.hard < 4294967296 }
    ensures { OnOk result (string_bytes text.new ≡ string_bytes text.old ++ access_counts n.now) }
{
    let Counts {
        hits,
        soft,
        hard,
        ..
    } = *n;
    let accesses = hits + soft + hard;
    write!(
        text,
        "accesses {accesses} hits {hits} soft {soft} hard {hard}"
    )
}

// Puts the counts of pages behind a text.
pub fn push_moves(text: &mut String, n: &Counts) -> Result<(), AllocError>
    ensures { OnOk result (string_bytes text.new ≡ string_bytes text.old ++ page_counts n.now) }
{
    let Counts {
        loads,
        evicted,
        stored,
        ..
    } = *n;
    writeln!(text, " loads {loads} evicted {evicted} written {stored}")
}
