// What the siblings of a child in an all-of group allow: for all flags at once, from their rows.
#![tactic(auto)]

ghost use Rattle.std.specs.Prelude.{◌↔◌, ◌<◌, T};
ghost use Rattle.base.specs.Bits.{bit};
ghost use Rattle.tables.specs.Segments.{AtSegment};
ghost use Rattle.tables.specs.Sizes.{NODES};
ghost use Rattle.marks_siblings.specs.Siblings.{Apart, Narrows, Narrowed, SiblingsOf};

use base::ALL;
use marks_row::columns::{ASSERTS, AVOID, QUIET};
use marks_row::{Rows, neither, word_at};
use tables::codes::Relation;
use tables::{NODES, Nodes, Orders, Segment};

// What the siblings of a child in an all-of group allow: those before it avoid the flag, are quiet for its clear and
// its set literal; those after it avoid the flag; those unordered with it do not assert the flag.
#[derive(Drop)]
pub struct Siblings {
    pub avoid_before: u64,
    pub clear_before: u64,
    pub set_before: u64,
    pub avoid_after: u64,
    pub silent_apart: u64,
}

// a and b are unordered.
pub fn apart(order: &Orders, a: usize, b: usize) -> bool
    requires { (a < NODES) × (b < NODES) }
    ensures { T result ↔ Apart order.now a b }
{
    let code = order[a * NODES + b];
    code != Relation::Before as u8 && code != Relation::After as u8 && a != b
}

// Where it applies, the word with only the flags of the other.
pub fn narrowed(word: u64, applies: bool, by: u64) -> u64
    ensures { Narrows word result (T applies) (λ f. T (bit by f)) }
{
    if applies { word & by } else { word }
}

fn with_sibling(order: &Orders, rows: &Rows, child: usize, sibling: usize, s: Siblings) -> Siblings
    requires { (child < NODES) × (sibling < NODES) }
    ensures { Narrowed order.now rows.now child sibling s result }
{
    let stands = order[sibling * NODES + child];
    if stands == Relation::Before as u8 {
        Siblings {
            avoid_before: s.avoid_before & word_at(rows, sibling, AVOID),
            clear_before: s.clear_before & word_at(rows, sibling, QUIET),
            set_before: s.set_before & word_at(rows, sibling, QUIET + 1),
            ..s
        }
    } else if stands == Relation::After as u8 {
        Siblings {
            avoid_after: s.avoid_after & word_at(rows, sibling, AVOID),
            ..s
        }
    } else if sibling == child {
        s
    } else {
        Siblings {
            silent_apart: s.silent_apart & neither(rows, sibling, ASSERTS, ASSERTS + 1),
            ..s
        }
    }
}

// One pass over the siblings of a child of the all-of group.
pub fn all_siblings(
    kids: &Nodes,
    segment: Segment,
    order: &Orders,
    rows: &Rows,
    child: usize,
) -> Siblings
    requires { AtSegment kids.now segment × (child < NODES) }
    ensures { SiblingsOf kids.now segment order.now rows.now child result }
{
    let mut s = Siblings {
        avoid_before: ALL,
        clear_before: ALL,
        set_before: ALL,
        avoid_after: ALL,
        silent_apart: ALL,
    };
    for i in segment.start..segment.end {
        s = with_sibling(order, rows, child, usize::from(kids[i]), s);
    }
    s
}
