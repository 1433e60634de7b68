// The steps that are the same on every board.
use crate::stop::Stop;
use crowd::crowd::{Target, crowd};
use crowd::outcome::Outcome;
use pmap::access::Access;
use pmap::interface::Pmap;
use request::request::Request;
use std::alloc::Global;
use std::io;

// A board that shows where a mapping stands in its tables.
pub trait Board: Pmap {
    // What the pages of a crowd have in common.
    fn crowd_name() -> &'static str;

    // Pages of the space that drive the mapping out.
    fn others(heap: Global, request: Request) -> Result<Vec<u32>, Stop>;

    // Prints where the tables are read for the place.
    fn show_indices(&self, rt: &HostRuntime, request: Request) -> Result<(), Stop>;

    // Prints the words that the hardware finds for the place, or that there are none.
    fn show_words(&self, rt: &HostRuntime, request: Request) -> Result<(), Stop>;
}

// A read or a write at the place, a line on what it found, and the words after it.
fn touch<B: Board>(
    rt: &HostRuntime,
    board: &mut B,
    request: Request,
    write: bool,
) -> Result<(), Stop>
    requires { B.kept board.old }
    ensures { B.kept board.new }
{
    let name = if write { "write" } else { "read" };
    match board.access(request.space, request.page, write)? {
        Access::Hit(frame) => println!(rt; "  {name}: hit, frame {frame}")?,
        Access::Miss => println!(rt; "  {name}: miss")?,
    }
    board.show_words(rt, request)
}

// Enters the mapping, reads and writes, with the words after each step.
fn use_mapping<B: Board>(rt: &HostRuntime, board: &mut B, request: Request) -> Result<(), Stop>
    requires { B.kept board.old }
    ensures { B.kept board.new }
{
    board.enter(
        request.space,
        request.page,
        request.frame,
        request.protection,
        false,
    )?;
    board.show_indices(rt, request)?;
    println!(rt; "  enter")?;
    board.show_words(rt, request)?;
    touch(rt, board, request, false)?;
    touch(rt, board, request, true)
}

// A line on what came of the crowd.
fn show_crowd(rt: &HostRuntime, outcome: Outcome, of: &str) -> io::Result<()> {
    let others = outcome.others;
    let forgotten = outcome.forgotten;
    println!(rt; "  crowd: {others} {of}; forgotten: {forgotten}")
}

fn show_modified(rt: &HostRuntime, outcome: Outcome, frame: u16) -> io::Result<()> {
    let modified = outcome.modified;
    println!(rt; "  frame {frame} modified: {modified}")
}

// The mapping in use, and then in a crowd.
pub fn show<B: Board>(rt: &HostRuntime, board: &mut B, request: Request) -> Result<Outcome, Stop>
    requires { B.kept board.old }
{
    use_mapping(rt, board, request)?;
    let others = B::others(rt.alloc(), request)?;
    let target = Target {
        space: request.space,
        page: request.page,
        frame: request.frame,
    };
    let outcome = crowd(board, target, &others)?;
    show_crowd(rt, outcome, B::crowd_name())?;
    board.show_words(rt, request)?;
    show_modified(rt, outcome, request.frame)?;
    Ok(outcome)
}
