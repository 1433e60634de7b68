// Why a thing was not made of what was given for it: a board of its table memory, a memory of its pmap.
use crate::file::FileRefusal;

// What was given comes back as it was.
#[derive(Drop)]
pub enum NotMade<T> {
    // its size, or the count that came with it, is refused
    Refused(FileRefusal, T),
    // there was no memory to be had
    NoMemory(T),
}
