// What the memory keeps records of.

// Pages of a space that stand for pages of an object: page p for the index offset + p - first.
#[derive(Clone, Copy, PartialEq, Eq, Debug)]
pub struct Region {
    pub space: u8,
    pub first: u32,
    pub count: u16,
    pub object: u8,
    pub offset: u8,
    pub protection: u8,
}

// A wired place, and the frame that it is wired to.
#[derive(Clone, Copy, PartialEq, Eq, Debug)]
pub struct WiredPlace {
    pub space: u8,
    pub page: u32,
    pub frame: u16,
}
