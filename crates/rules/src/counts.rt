// What the memory counts.
#[derive(Clone, Copy, PartialEq, Eq, Default, Debug)]
pub struct Counts {
    pub calls: u32,
    pub refused: u32,
    pub hits: u32,
    pub soft: u32,
    pub hard: u32,
    pub loads: u32,
    pub evicted: u32,
    pub stored: u32,
}
