// The hardware's walk over the table words.
ghost use Rattle.std.specs.Prelude.{◌≡◌, ◌<◌, IfSome, slice_index};
ghost use Rattle.x86_words.specs.Walks.{linear, position as position_of, walk};
ghost use Rattle.x86_words.specs.Words.{table_of};
ghost use Rattle.x86_words.specs.Within.{Within};

use crate::word::table_below;
use slots::word::word_or;

// The pages that a word covers in the PML4, in the PDPT and in a page directory.
const ROOT_COVER: u64 = 512 * 512 * 512;

const ENTRY_COVER: u64 = 512 * 512;

const DIRECTORY_COVER: u64 = 512;

// The positions of the four words that a walk meets: in the PML4, the PDPT, a page directory and a leaf.
// Their bounds are a clause and no ghost fields: the definitions would have to carry proofs in every walk.
#[derive(Clone, Copy)]
pub struct Walk {
    pub root: usize,
    pub entry: usize,
    pub directory: usize,
    pub leaf: usize,
}

// The linear page of a place.
pub fn linear_page(space: u8, page: u32) -> u64
    ensures { result ≡ linear space page }
{
    u64::from(space) * ENTRY_COVER + u64::from(page)
}

// The position of the word for a linear page in a table whose words each cover that many pages.
fn position(table: usize, linear: u64, cover: u64) -> usize
    requires { (table < 16) × (0 < cover) }
    ensures is { result ≡ position_of table linear cover }
    ensures bound { result < 8192 }
{
    512 * table + (linear / cover % 512) as usize
}

// The table that the word at a position points to.
fn table_at(words: &[u64], at: usize) -> Option<usize>
    ensures is { result ≡ table_of (slice_index words.now at) }
    ensures bound { IfSome result (λ t. t < 16) }
{
    table_below(word_or(words, at, 0))
}

// Walks from the PML4 down to the leaf word for a linear page.
#[tactic(auto, unfolding(crate::specs::Walks::walk))]
pub fn walk_tables(words: &[u64], linear: u64) -> Option<Walk>
    ensures is { result ≡ walk words.now linear }
    ensures bound { Within result }
{
    let root = position(0, linear, ROOT_COVER);
    let entry = position(table_at(words, root)?, linear, ENTRY_COVER);
    let directory = position(table_at(words, entry)?, linear, DIRECTORY_COVER);
    let leaf = position(table_at(words, directory)?, linear, 1);
    Some(Walk {
        root,
        entry,
        directory,
        leaf,
    })
}
