// The search for a sequence of the root's children, each wholly before the next, from the rows of the children.
#![tactic(auto)]

ghost use Rattle.std.specs.Prelude.{◌≡◌, ◌<◌};
ghost use Rattle.tables.specs.Sizes.{NODES};
ghost use Rattle.sequence_search.specs.Search.{InRange, follows_b, after, Finds};

use marks_row::columns::{AVOID, MAY_POST, MAY_PRE};
use marks_row::{Rows, word_at};
use tables::{Nodes, Segment};

// The children of the root, at most.
pub const CHILDREN: usize = 7;

// For each place among the children the places of those that stand before.
pub type Masks = [u64; CHILDREN];

// Where a search has come to: how many children are left, the places of those that are seen, and the flags that may be
// set and may be clear after them.
#[derive(Clone, Copy)]
pub struct Reach {
    pub left: usize,
    pub seen: u64,
    pub set: u64,
    pub clear: u64,
}

// Whether a child may come next: it is not yet seen, all that stand before it are, and it may need no literal whose
// opposite may be true. Its own place is a bit, and a mask has the places of those before it.
fn may_follow(rows: &Rows, child: usize, mask: u64, own: u64, reach: Reach) -> bool
    requires { child < NODES }
    ensures { result ≡ follows_b rows.now child mask own reach }
{
    let again = reach.seen & own;
    let early = mask ^ (mask & reach.seen);
    let unset = word_at(rows, child, MAY_PRE + 1) & reach.clear;
    let unclear = word_at(rows, child, MAY_PRE) & reach.set;
    (again | early) | (unset | unclear) == 0
}

// Where the search is with one child more: a flag may have a value that the child may leave, or that it may have had
// before if the child may leave the flag alone.
fn moved_on(rows: &Rows, child: usize, own: u64, reach: Reach) -> Reach
    requires { (child < NODES) × (0 < reach.left) }
    ensures { result ≡ after rows.now child own reach }
{
    let avoid = word_at(rows, child, AVOID);
    Reach {
        left: reach.left - 1,
        seen: reach.seen | own,
        set: word_at(rows, child, MAY_POST + 1) | (avoid & reach.set),
        clear: word_at(rows, child, MAY_POST) | (avoid & reach.clear),
    }
}

// The first rest of a sequence after the children seen, if there is one, as a word with its first node in the lowest
// byte: the children are tried in rising order, and one that may not come next is left at once.
pub fn search(
    rows: &Rows,
    kids: &Nodes,
    segment: Segment,
    before: &Masks,
    reach: Reach,
) -> Option<u64>
    requires { InRange kids.now segment }
    ensures { Finds rows.now kids.now segment before.now reach result }
{
    if reach.left == 0 {
        return Some(0);
    }
    for i in 0..segment.end - segment.start {
        let byte = kids[segment.start + i];
        let child = usize::from(byte);
        let own = 1u64 << i;
        if may_follow(rows, child, before[i], own, reach) {
            let next = moved_on(rows, child, own, reach);
            if let Some(rest) = search(rows, kids, segment, before, next) {
                return Some((rest << 8) | u64::from(byte));
            }
        }
    }
    None
}
