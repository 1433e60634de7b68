// The public call of the memory, and its making.
ghost use Rattle.std.specs.Prelude.{◌≡◌, ◌<◌, ◌≤◌};
ghost use Rattle.rules.specs.Refusals.{refusal as refusal_of};
ghost use Rattle.rules.specs.Rules.{reply as reply_to, after as state_after};
ghost use Rattle.rules.specs.History.{May};
ghost use Rattle.memory_meaning.specs.Ready.{hits};
ghost use Rattle.memory_meaning.specs.Leaves.{Leaves};
ghost use Rattle.memory.specs.Whole.{seen, state, Whole};

use crate::memory::Memory;
use calls::Call;
use memory_meaning::counting::added;
use pmap::interface::Pmap;
use refusal::memory::MemoryRefusal;
use rules::answer::Reply;

// how many calls a memory takes
const CALL_LIMIT: u32 = 1_000_000;

impl<P: Pmap> Memory<P> {
    // Carries out one call, or refuses it, and counts it.
    pub fn call(&mut self, call: Call) -> Reply
        ensures answer { result ≡ reply_to (state P.view self.old) call (hits (seen P.view self.old) call) }
        ensures state { state P.view self.new ≡ state_after (state P.view self.old) call (hits (seen P.view self.old) call) }
        ensures view { Leaves (seen P.view self.old) (seen P.view self.new) (state P.view self.old) call (refusal_of (state P.view self.old) call) }
        ensures may { May (state P.view self.old) call (hits (seen P.view self.old) call) }
        ensures whole { Whole P.view P.kept self.new }
    {
        let counts = self.parts.counts;
        if counts.calls < CALL_LIMIT {
            let reply = self.serve(call);
            self.parts.counts = added(&counts, &reply);
            reply
        } else {
            Err(MemoryRefusal::CallLimit)
        }
    }
}
