// The x86-64 board as a pmap: each call of the board has the meaning of the pmap's call.
ghost use Rattle.std.specs.Prelude.{◌≡◌, vec_len, MatchResult};
ghost use Rattle.pmap.specs.Meaning.{Cleared, Accesses};
ghost use Rattle.x86_words.specs.Walks.{linear};
ghost use Rattle.x86_words.specs.Lookups.{lookup};
ghost use Rattle.x86.specs.Making.{Returned};
ghost use Rattle.x86.specs.Reads.{state};
ghost use Rattle.x86_pmap.specs.Kept.{Kept};
ghost use Rattle.x86_pmap.specs.Seen.{Sees, SetsBits};
ghost use Rattle.x86_pmap.specs.Views.{view_of};

use pmap::access::Access;
use pmap::interface::Pmap;
use refusal::making::NotMade;
use refusal::pmap::PmapRefusal;
use std::alloc::Global;
use x86::board::Board;
use x86_words::lookup::look_up;
use x86_words::walk::linear_page;

#[derive(Drop)]
pub struct X86 {
    board: Board,
}

impl X86 {
    // A pmap over the given table memory, cleared. Memory of another length is refused and comes back as it was.
    pub fn new(heap: Global, words: Vec<u64>) -> Result<X86, NotMade<Vec<u64>>>
        ensures { MatchResult result (λ x. Cleared (view_of (state x.board)) × Kept (state x.board) × (vec_len words ≡ 8192)) (Returned words) }
    {
        let board = Board::new(heap, words)?;
        Ok(X86 { board })
    }

    // The table words.
    pub fn words(&self) -> &[u64]
        ensures { result.now ≡ (state self.now.board).words }
    {
        self.board.words()
    }

    // The leaf to look at first when one is taken.
    pub fn next_leaf(&self) -> usize
        ensures { result ≡ (state self.now.board).next }
    {
        self.board.next_leaf()
    }

    // What the hardware finds for a place in the table words alone: the mapping that is held there, or nothing.
    pub fn look_up(&self, space: u8, page: u32) -> Option<(u64, bool)>
        requires { Kept (state self.now.board) }
        ensures words { result ≡ lookup (state self.now.board).words (linear space page) }
        ensures sees { Sees (view_of (state self.now.board)) space page result }
    {
        look_up(self.board.words(), linear_page(space, page))
    }
}

// Each board has these lines over its own exact calls, from which the meaning is proved; a generic wrapper would ask of a board
// what the trait asks already.
impl Pmap for X86 {
    ghost view = { λ x. view_of (state x.board) };

    ghost kept = { λ x. Kept (state x.board) };

    fn clear(&mut self) {
        self.board.clear();
    }

    fn enter(
        &mut self,
        space: u8,
        page: u32,
        frame: u16,
        protection: u8,
        wired: bool,
    ) -> Result<(), PmapRefusal> {
        self.board.enter(space, page, frame, protection, wired)
    }

    fn remove(&mut self, space: u8, page: u32) -> Result<(), PmapRefusal> {
        self.board.remove(space, page)
    }

    fn lower(&mut self, space: u8, page: u32) -> Result<(), PmapRefusal> {
        self.board.lower(space, page)
    }

    fn drop_frame(&mut self, frame: u16) -> Result<(), PmapRefusal> {
        self.board.drop_frame(frame)
    }

    fn unwire(&mut self, space: u8, page: u32) -> Result<(), PmapRefusal> {
        self.board.unwire(space, page)
    }

    fn access(&mut self, space: u8, page: u32, write: bool) -> Result<Access, PmapRefusal>
        requires { Kept (state self.old.board) }
        ensures meaning { Accesses (view_of (state self.old.board)) (view_of (state self.new.board)) space page write result }
        ensures kept { Kept (state self.new.board) }
        ensures hardware { SetsBits (state self.old.board).words (state self.new.board).words (linear space page) write result }
    {
        self.board.access(space, page, write)
    }

    fn find(&self, space: u8, page: u32) -> Result<Option<(u16, u8, bool)>, PmapRefusal> {
        self.board.find(space, page)
    }

    fn modified(&self, frame: u16) -> Result<bool, PmapRefusal> {
        self.board.modified(frame)
    }

    fn clear_modified(&mut self, frame: u16) -> Result<(), PmapRefusal> {
        self.board.clear_modified(frame)
    }
}
