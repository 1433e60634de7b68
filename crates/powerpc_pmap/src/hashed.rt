// The PowerPC board behind the pmap interface.
ghost use Rattle.std.specs.Prelude.{◌≡◌, length, MatchResult};
ghost use Rattle.pmap.specs.Ranges.{fits_place};
ghost use Rattle.powerpc_words.specs.State.{start};
ghost use Rattle.powerpc.specs.Reads.{state};
ghost use Rattle.powerpc_words.specs.Answers.{or_range};
ghost use Rattle.powerpc.specs.Making.{Unmade};
ghost use Rattle.powerpc_pmap.specs.View.{view_of};
ghost use Rattle.powerpc_pmap.specs.Kept.{Kept};
ghost use Rattle.powerpc_pmap.specs.Hardware.{translated, Translates};

use pmap::access::Access;
use pmap::interface::Pmap;
use powerpc::board::Board;
use refusal::making::NotMade;
use refusal::pmap::PmapRefusal;
use std::alloc::Global;

#[derive(Drop)]
pub struct Hashed {
    pub board: Board,
}

impl Hashed {
    // A pmap over the given table memory, in its starting state.
    pub fn new(heap: Global, words: Vec<u32>) -> Result<Hashed, NotMade<Vec<u32>>>
        ensures { MatchResult result (λ h. (length words.items ≡ 16384) × (state h.board ≡ start) × Kept (state h.board)) (λ e. Unmade words e) }
    {
        let board = Board::new(heap, words)?;
        Ok(Hashed { board })
    }

    // The frame and the protection that the hardware's lookup finds in the table words, or none.
    // That is what the pmap holds, at every place.
    pub fn translate(&self, space: u8, page: u32) -> Result<Option<(u16, u8)>, PmapRefusal>
        ensures answer { result ≡ or_range (fits_place space page) (translated self.now.board.words.items space page) }
        ensures agrees { Translates self.now.board.words.items (view_of (state self.now.board)) }
    {
        let found = self.board.find(space, page)?;
        Ok(found.map(|(frame, protection, _)| (frame, protection)))
    }
}

// Each board has these lines over its own exact calls, from which the meaning is proved; a generic wrapper would ask of a board
// what the trait asks already.
impl Pmap for Hashed {
    ghost view = { λ h. view_of (state h.board) };

    ghost kept = { λ h. Kept (state h.board) };

    fn clear(&mut self) {
        self.board.clear();
    }

    fn enter(
        &mut self,
        space: u8,
        page: u32,
        frame: u16,
        protection: u8,
        wired: bool,
    ) -> Result<(), PmapRefusal> {
        self.board.enter(space, page, frame, protection, wired)
    }

    fn remove(&mut self, space: u8, page: u32) -> Result<(), PmapRefusal> {
        self.board.remove(space, page)
    }

    fn lower(&mut self, space: u8, page: u32) -> Result<(), PmapRefusal> {
        self.board.lower(space, page)
    }

    fn drop_frame(&mut self, frame: u16) -> Result<(), PmapRefusal> {
        self.board.drop_frame(frame)
    }

    fn unwire(&mut self, space: u8, page: u32) -> Result<(), PmapRefusal> {
        self.board.unwire(space, page)
    }

    fn access(&mut self, space: u8, page: u32, write: bool) -> Result<Access, PmapRefusal> {
        self.board.access(space, page, write)
    }

    fn find(&self, space: u8, page: u32) -> Result<Option<(u16, u8, bool)>, PmapRefusal> {
        self.board.find(space, page)
    }

    fn modified(&self, frame: u16) -> Result<bool, PmapRefusal> {
        self.board.modified(frame)
    }

    fn clear_modified(&mut self, frame: u16) -> Result<(), PmapRefusal> {
        self.board.clear_modified(frame)
    }
}
