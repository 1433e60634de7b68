// What stops the program.
use refusal::pmap::PmapRefusal;
use std::alloc::AllocError;
use std::io;

#[derive(Drop)]
pub enum Stop {
    Output(io::Error),
    Refused(PmapRefusal),
    Memory,
}

impl From<io::Error> for Stop {
    fn from(e: io::Error) -> Stop {
        Stop::Output(e)
    }
}

impl From<PmapRefusal> for Stop {
    fn from(e: PmapRefusal) -> Stop {
        Stop::Refused(e)
    }
}

impl From<AllocError> for Stop {
    fn from(_e: AllocError) -> Stop {
        Stop::Memory
    }
}
