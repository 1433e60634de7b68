// The machines of a replay: each board, and a pile of layers over both. Each board has its modified frames kept at hand, so that a
// sync looks through no table.
ghost use Rattle.std.specs.Prelude.{◌≡◌, false, IfOk, MatchOption};
ghost use Rattle.memory.specs.Making.{fits_frames};
ghost use Rattle.machines.specs.Names.{name_of};
ghost use Rattle.machines.specs.Shows.{Shows};

use calls::Call;
use layers::offset::Offset;
use layers::replica::Replica;
use memory::making::fits_frames;
use noted::Noted;
use pmap::interface::Pmap;
use powerpc_pmap::hashed::Hashed;
use rules::answer::Reply;
use rules::counts::Counts;
use runs::run::run;
use std::alloc::{AllocError, Global};
use x86_pmap::meaning::X86;

// how far the pile's pages are shifted
const SHIFT: u32 = 3;

// A board of the words that it wants is not made for want of memory alone, and `NotMade` has no `AllocError` in it.
pub(crate) fn x86(heap: Global) -> Result<Noted<X86>, AllocError> {
    let board = X86::new(heap, vec![in heap; 0; x86::board::WORDS]?).map_err(|_| AllocError)?;
    Ok(Noted::new(board))
}

pub(crate) fn powerpc(heap: Global) -> Result<Noted<Hashed>, AllocError> {
    let board = Hashed::new(heap, vec![in heap; 0; powerpc::board::WORDS]?).map_err(
        |_| AllocError,
    )?;
    Ok(Noted::new(board))
}

// An offset over a replica of the two boards, the x86-64 board first.
pub(crate) fn pile(heap: Global) -> Result<Offset<Replica<Noted<X86>, Noted<Hashed>>>, AllocError> {
    let both = Replica::new(x86(heap)?, powerpc(heap)?);
    let Ok(shifted) = Offset::new(both, SHIFT) else {
        unreachable()
    };
    Ok(shifted)
}

// An enum and no closure that makes the pmap: each machine's pmap has a type of its own.
#[derive(Clone, Copy, PartialEq, Eq, Debug)]
pub enum Machine {
    X86,
    PowerPc,
    Pile,
}

impl Machine {
    pub const ALL: [Machine; 3] = [Machine::X86, Machine::PowerPc, Machine::Pile];

    // Its name, as blocks begin with it.
    pub fn name(self) -> &'static str
        ensures { result.now ≡ name_of self }
    {
        match self {
            Machine::X86 => "x86-64",
            Machine::PowerPc => "powerpc",
            Machine::Pile => "pile",
        }
    }
}

// What each call of a run was answered, and the counts at its end.
#[derive(Drop)]
pub struct Seen {
    pub replies: Vec<Reply>,
    pub counts: Counts,
}

// A run of calls on a new memory over a pmap; none for a frame count out of range.
fn run_over<P: Pmap + Drop>(
    heap: Global,
    pmap: P,
    frames: u16,
    calls: &[Call],
) -> Result<Option<Seen>, AllocError>
    ensures { IfOk result (λ o. MatchOption o (fits_frames frames ≡ false) (λ x. Shows frames calls.now x)) }
{
    if !fits_frames(frames) {
        return Ok(None);
    }
    let ran = run(heap, pmap, frames, calls).map_err(|_| AllocError)?;
    let counts = ran.memory.counts();
    Ok(Some(Seen {
        replies: ran.replies,
        counts,
    }))
}

// A run of calls on a new memory over a machine; none for a frame count out of range.
pub fn run_on(
    heap: Global,
    machine: Machine,
    frames: u16,
    calls: &[Call],
) -> Result<Option<Seen>, AllocError>
    ensures { IfOk result (λ o. MatchOption o (fits_frames frames ≡ false) (λ x. Shows frames calls.now x)) }
{
    match machine {
        Machine::X86 => run_over(heap, x86(heap)?, frames, calls),
        Machine::PowerPc => run_over(heap, powerpc(heap)?, frames, calls),
        Machine::Pile => run_over(heap, pile(heap)?, frames, calls),
    }
}
