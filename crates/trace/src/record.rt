// An entry of a trace file: what stands at one of its places.
use calls::Call;
use refusal::file::FileRefusal;

// What stands at a place of a trace file: the place's number from 0, and the call or why its record is turned away.
#[derive(Clone, Copy, PartialEq, Eq, Debug)]
pub struct Entry {
    pub number: u32,
    pub content: Result<Call, FileRefusal>,
}
