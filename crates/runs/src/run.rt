// A run of calls on a memory that is made for it.
ghost use Rattle.std.specs.Prelude.{◌≡◌, ◌≤◌, [], length, Ok, Err, vec_len, vec_capacity};
ghost use Rattle.refusal.specs.Making.{GivenBack};
ghost use Rattle.memory.specs.Making.{fits_frames};
ghost use Rattle.memory.specs.Whole.{state, Whole};
ghost use Rattle.runs.specs.RunLaw.{Trail, RunLaw};

use calls::Call;
use memory::making::fits_frames;
use memory::memory::Memory;
use pmap::interface::Pmap;
use refusal::file::FileRefusal;
use refusal::making::NotMade;
use rules::answer::Reply;
use std::alloc::Global;

// A memory after its calls, and what each of them was answered.
#[derive(Drop)]
pub struct Ran<P: Pmap> {
    pub memory: Memory<P>,
    pub replies: Vec<Reply>,
}

// Gives the memory each call in turn. The replies have their place reserved.
fn drive<P: Pmap>(memory: &mut Memory<P>, calls: &[Call], replies: &mut Vec<Reply>, frames: u16)
    requires begun { Trail frames [] replies.old.items (state P.view memory.old) }
    requires whole { Whole P.view P.kept memory.old }
    requires empty { vec_len replies.old ≡ 0 }
    requires room { length calls.now ≤ vec_capacity replies.old }
    ensures trail { Trail frames calls.now replies.new.items (state P.view memory.new) }
    ensures whole { Whole P.view P.kept memory.new }
{
    // no `collect`: it would ask for memory once the calls have begun
    for call in calls {
        let reply = memory.call(*call);
        replies.push_reserved(reply);
    }
}

// Makes a memory of `frames` frames over the pmap, and gives it the calls. What the calls need is reserved before the first of
// them, so that want of memory is an answer of the making alone.
pub fn run<P: Pmap>(
    heap: Global,
    pmap: P,
    frames: u16,
    calls: &[Call],
) -> Result<Ran<P>, NotMade<P>>
    ensures law { elim result [ Ok x ↦ RunLaw frames calls.now x.replies.items (state P.view x.memory) | Err e ↦ GivenBack (fits_frames frames) pmap e ] }
    ensures keeps { elim result [ Ok x ↦ Whole P.view P.kept x.memory | Err e ↦ Unit {0} ] }
{
    if !fits_frames(frames) {
        return Err(NotMade::Refused(FileRefusal::Size, pmap));
    }
    let Ok(mut replies) = Vec::with_capacity(heap, calls.len()) else {
        return Err(NotMade::NoMemory(pmap));
    };
    let mut memory = Memory::new(heap, pmap, frames)?;
    drive(&mut memory, calls, &mut replies, frames);
    Ok(Ran { memory, replies })
}
