// The calls of a trace: one for each record that the reader did not turn away.
ghost use Rattle.std.specs.Prelude.{◌≡◌, ◌++◌, IfOk, OnOk};
ghost use Rattle.replays.specs.Selected.{call_in, calls_in};

use calls::Call;
use std::alloc::{AllocError, Global};
use trace::record::Entry;

// Puts the call of an entry behind the others, if it has one.
fn push_call(calls: &mut Vec<Call>, item: &Entry) -> Result<(), AllocError>
    ensures { OnOk result (calls.new.items ≡ calls.old.items ++ call_in item.now.content) }
{
    match item.content {
        Ok(spelled) => {
            calls.push(spelled)?;
            Ok(())
        }
        Err(_) => Ok(()),
    }
}

// The calls of all entries, in their order.
pub fn calls_in(heap: Global, entries: &[Entry]) -> Result<Vec<Call>, AllocError>
    ensures { IfOk result (λ v. v.items ≡ calls_in entries.now) }
{
    let mut calls = Vec::new(heap);
    for item in entries {
        push_call(&mut calls, item)?;
    }
    Ok(calls)
}
