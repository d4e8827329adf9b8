// The flags that pass from a child d of an all-of group to a child c after it: may pass, where every child between the
// two can avoid the flag; always pass, where no task under any other child asserts it, unless that child stands before
// d or after c.
#![tactic(auto)]

ghost use Rattle.std.specs.Prelude.{◌↔◌, ℕ, ◌<◌, T, get_or};
ghost use Rattle.base.specs.Bits.{bit};
ghost use Rattle.tables.specs.Segments.{AtSegment, AtPair};
ghost use Rattle.tables.specs.Sizes.{NODES};
ghost use Rattle.marks_between.specs.Passing.{StandsBetween, Disturbs, InTheWay, LetsPass, PassingPart};
ghost use Rattle.marks_between.specs.Passing.{PassingWord};

use marks_row::columns::{ASSERTS, AVOID};
use marks_row::{Rows, neither, word_at};
use marks_siblings::narrowed;
use tables::codes::Relation;
use tables::{NODES, Nodes, Orders, Segment};

// Flags of one sign: 0 clear, 1 set.
#[derive(Clone, Copy)]
pub struct OfSign {
    pub sign: usize,
    pub flags: u64,
}

// A child of a group, and the position of its partner in the table of children.
#[derive(Clone, Copy)]
pub struct Partners {
    pub child: usize,
    pub at: usize,
}

// Flags, and which of them are asked for: those that may pass, or those that always pass.
#[derive(Clone, Copy)]
pub struct ToPass {
    pub always: bool,
    pub flags: u64,
}

// The passage of flags from one child to another.
#[derive(Clone, Copy)]
struct Passage {
    from: usize,
    to: usize,
}

// b stands after d and before c.
fn stands_between(order: &Orders, b: usize, c: usize, d: usize) -> bool
    requires { (b < NODES) × ((c < NODES) × (d < NODES)) }
    ensures { T result ↔ StandsBetween order.now b c d }
{
    order[d * NODES + b] == Relation::Before as u8 && order[b * NODES + c] == Relation::Before as u8
}

// b is neither c nor d, and stands neither before d nor after c.
fn disturbs(order: &Orders, b: usize, c: usize, d: usize) -> bool
    requires { (b < NODES) × ((c < NODES) × (d < NODES)) }
    ensures { T result ↔ Disturbs order.now b c d }
{
    b != c
        && b != d
        && order[b * NODES + d] != Relation::Before as u8
        && order[b * NODES + c] != Relation::After as u8
}

// The child b is one of those that the flags have to pass.
fn in_the_way(order: &Orders, always: bool, b: usize, passage: Passage) -> bool
    requires { (b < NODES) × ((passage.to < NODES) × (passage.from < NODES)) }
    ensures { T result ↔ InTheWay order.now always b passage.to passage.from }
{
    if always {
        disturbs(order, b, passage.to, passage.from)
    } else {
        stands_between(order, b, passage.to, passage.from)
    }
}

// The flags that the child b lets pass.
fn lets_pass(rows: &Rows, always: bool, b: usize) -> u64
    requires { b < NODES }
    ensures { (f : ℕ) → f < 64 → T (bit result f) ↔ LetsPass rows.now always b f }
{
    if always {
        neither(rows, b, ASSERTS, ASSERTS + 1)
    } else {
        word_at(rows, b, AVOID)
    }
}

// Of the given flags, those that pass every child in the segment; it ends as soon as none is left.
fn passing_part(
    kids: &Nodes,
    segment: Segment,
    order: &Orders,
    rows: &Rows,
    given: ToPass,
    passage: Passage,
) -> u64
    requires { AtSegment kids.now segment × ((passage.to < NODES) × (passage.from < NODES)) }
    ensures { PassingPart kids.now segment.start segment.end order.now
        rows.now given.always given.flags passage.to passage.from result }
{
    let mut left = given.flags;
    for i in segment.start..segment.end {
        if left == 0 {
            break;
        }
        let b = usize::from(kids[i]);
        left = narrowed(
            left,
            in_the_way(order, given.always, b, passage),
            lets_pass(rows, given.always, b),
        );
    }
    left
}

// Of the given flags, those that pass to a child from its partner. The children after the partner in the table come
// first: there the flags are soonest settled.
pub fn passing(
    kids: &Nodes,
    segment: Segment,
    order: &Orders,
    rows: &Rows,
    given: ToPass,
    partners: Partners,
) -> u64
    requires { AtPair kids.now segment partners.child partners.at }
    ensures { PassingWord kids.now segment order.now rows.now
        given.always given.flags partners.child (get_or kids.now partners.at 0) result }
{
    let j = partners.at;
    let passage = Passage {
        from: usize::from(kids[j]),
        to: partners.child,
    };
    let later = Segment {
        start: j + 1,
        ..segment
    };
    let earlier = Segment {
        end: j + 1,
        ..segment
    };
    let flags = passing_part(kids, later, order, rows, given, passage);
    let left = ToPass { flags, ..given };
    passing_part(kids, earlier, order, rows, left, passage)
}
