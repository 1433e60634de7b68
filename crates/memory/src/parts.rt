// What a memory consists of: a pmap, the tables beside it, and the counts. The steps of a call run on these; what they keep between
// two calls is the invariant of the memory.
use pmap::interface::Pmap;
use rules::counts::Counts;
use tables::table::Tables;

#[derive(Drop)]
pub struct Parts<P: Pmap> {
    pub pmap: P,
    pub tables: Tables,
    pub counts: Counts,
}
