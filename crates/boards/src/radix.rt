// The mapping on the x86-64 board.
use crate::steps::{self, Board};
use crate::stop::Stop;
use crowd::outcome::Outcome;
use pmap::range::PAGES;
use request::request::Request;
use slots::word::word_or;
use std::alloc::Global;
use x86::board::WORDS;
use x86_pmap::meaning::X86;
use x86_words::leaves::TABLE;
use x86_words::walk::{linear_page, walk_tables};

// The pages that a directory word covers: one for each word of a leaf.
const COVER: u32 = TABLE as u32;

impl Board for X86 {
    fn crowd_name() -> &'static str {
        "pages of other directory indices"
    }

    // The first pages of all directory indices but the page's own.
    fn others(heap: Global, request: Request) -> Result<Vec<u32>, Stop> {
        let own = request.page / COVER;
        let others = (0..PAGES / COVER)
            .filter(|directory| *directory != own)
            .map(|directory| directory * COVER)
            .collect(heap)?;
        Ok(others)
    }

    // Prints where the walk for the place goes, or that it comes to no leaf.
    fn show_indices(&self, rt: &HostRuntime, request: Request) -> Result<(), Stop> {
        let Some(walk) = walk_tables(self.words(), linear_page(request.space, request.page)) else {
            println!(rt; "x86-64: no leaf")?;
            return Ok(());
        };
        let directory = walk.directory % TABLE;
        let leaf = walk.leaf % TABLE;
        let table = walk.leaf / TABLE;
        println!(rt; "x86-64: directory index {directory}, leaf index {leaf} in table {table}")?;
        Ok(())
    }

    // Prints the words that the walk for the place meets.
    fn show_words(&self, rt: &HostRuntime, request: Request) -> Result<(), Stop> {
        let words = self.words();
        let Some(walk) = walk_tables(words, linear_page(request.space, request.page)) else {
            println!(rt; "  the walk comes to no leaf")?;
            return Ok(());
        };
        let root = word_or(words, walk.root, 0);
        let entry = word_or(words, walk.entry, 0);
        let directory = word_or(words, walk.directory, 0);
        let leaf = word_or(words, walk.leaf, 0);
        println!(rt;
            "  words: PML4 {root:#x}, PDPT {entry:#x}, directory {directory:#x}, leaf {leaf:#x}"
        )?;
        Ok(())
    }
}

// Each board is made of words of its own size and type, so that this stands once for each.
pub fn show(rt: &HostRuntime, request: Request) -> Result<Outcome, Stop> {
    let heap = rt.alloc();
    let Ok(mut board) = X86::new(heap, vec![in heap; 0; WORDS]?) else {
        return Err(Stop::Memory);
    };
    steps::show(rt, &mut board, request)
}
