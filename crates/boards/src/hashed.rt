// The mapping on the PowerPC board.
use crate::steps::{self, Board};
use crate::stop::Stop;
use crowd::outcome::Outcome;
use pmap::range::PAGES;
use powerpc::board::WORDS;
use powerpc_pmap::hashed::Hashed;
use powerpc_words::places::{Indices, indices_of, slot_of};
use request::request::Request;
use slots::word::word_or;
use std::alloc::Global;

impl Board for Hashed {
    fn crowd_name() -> &'static str {
        "pages of the same groups"
    }

    // All other pages of the space with the groups of the place.
    fn others(heap: Global, request: Request) -> Result<Vec<u32>, Stop> {
        let primary = indices_of(request.space, request.page)?.primary;
        let others = (0..PAGES)
            .filter(|other| indices_of(request.space, *other).is_ok_and(|i| i.primary == primary))
            .filter(|other| *other != request.page)
            .collect(heap)?;
        Ok(others)
    }

    fn show_indices(&self, rt: &HostRuntime, request: Request) -> Result<(), Stop> {
        let Indices {
            vsid,
            primary,
            secondary,
            ..
        } = indices_of(request.space, request.page)?;
        println!(rt; "PowerPC: VSID {vsid}, groups {primary} and {secondary}")?;
        Ok(())
    }

    // Prints the entry that the hardware's lookup finds, or that there is none.
    fn show_words(&self, rt: &HostRuntime, request: Request) -> Result<(), Stop> {
        let words = self.board.words();
        let Some(slot) = slot_of(words, request.space, request.page)? else {
            println!(rt; "  neither group has an entry")?;
            return Ok(());
        };
        let first = word_or(words, 2 * slot, 0);
        let second = word_or(words, 2 * slot + 1, 0);
        let group = slot / 8;
        let place = slot % 8;
        println!(rt; "  words: {first:#x} {second:#x} in group {group}, slot {place}")?;
        Ok(())
    }
}

// Each board is made of words of its own size and type, so that this stands once for each.
pub fn show(rt: &HostRuntime, request: Request) -> Result<Outcome, Stop> {
    let heap = rt.alloc();
    let Ok(mut board) = Hashed::new(heap, vec![in heap; 0; WORDS]?) else {
        return Err(Stop::Memory);
    };
    steps::show(rt, &mut board, request)
}
