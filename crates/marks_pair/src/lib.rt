// The literals that a pair of children of an all-of group may clobber: for all flags at once, from the rows of the
// children.
#![tactic(auto)]

ghost use Rattle.std.specs.Prelude.{◌<◌, get_or};
ghost use Rattle.tables.specs.Segments.{AtPair};
ghost use Rattle.marks_between.specs.Passing.{PairWord};
ghost use Rattle.tables.specs.Sizes.{NODES};
ghost use Rattle.marks_pair.specs.Pairs.{Pair, PairWords, NextPartner};

use marks_between::{OfSign, Partners, ToPass, passing};
use marks_row::columns::{ASSERTS, MAY_POST, MAY_PRE, POSTS, REQUIRES};
use marks_row::{Rows, word_at};
use marks_siblings::apart;
use tables::codes::Relation;
use tables::{NODES, Nodes, Orders, Segment};

// Literals: the flags wanted clear, the flags wanted set.
#[derive(Clone, Copy)]
pub struct Literals {
    pub clear: u64,
    pub set: u64,
}

// The wanted flags of one sign that a child and its partner clobber.
fn pair_word(
    kids: &Nodes,
    segment: Segment,
    order: &Orders,
    rows: &Rows,
    wanted: OfSign,
    partners: Partners,
) -> u64
    requires { AtPair kids.now segment partners.child partners.at × (wanted.sign < 2) }
    ensures { PairWord Pair kids.now segment order.now rows.now
        wanted.sign wanted.flags partners.child (get_or kids.now partners.at 0) result }
{
    let c = partners.child;
    let j = partners.at;
    let d = usize::from(kids[j]);
    let sign = wanted.sign;
    if order[d * NODES + c] == Relation::Before as u8 {
        let passed = word_at(rows, d, MAY_POST + (1 - sign)) & word_at(rows, c, MAY_PRE + sign);
        let shared = wanted.flags & passed;
        if shared == 0 {
            return 0;
        }
        let given = ToPass {
            always: false,
            flags: shared,
        };
        passing(kids, segment, order, rows, given, partners)
    } else if apart(order, c, d) {
        let required = word_at(rows, c, REQUIRES + sign) & word_at(rows, d, ASSERTS + (1 - sign));
        let left = word_at(rows, c, POSTS + sign) & word_at(rows, d, POSTS + (1 - sign));
        wanted.flags & (required | left)
    } else {
        0
    }
}

// The wanted literals that a child and its partner clobber.
pub fn pair_words(
    kids: &Nodes,
    segment: Segment,
    order: &Orders,
    rows: &Rows,
    wanted: Literals,
    partners: Partners,
) -> Literals
    requires { AtPair kids.now segment partners.child partners.at }
    ensures { PairWords kids.now segment order.now rows.now wanted
        partners.child (get_or kids.now partners.at 0) result }
{
    let wanted_clear = OfSign {
        sign: 0,
        flags: wanted.clear,
    };
    let wanted_set = OfSign {
        sign: 1,
        flags: wanted.set,
    };
    let clear = pair_word(kids, segment, order, rows, wanted_clear, partners);
    let set = pair_word(kids, segment, order, rows, wanted_set, partners);
    Literals { clear, set }
}

// The position of the next child to pair with c: the given one, or past them all, if c requires or leaves no wanted
// literal.
pub fn next_partner(rows: &Rows, wanted: Literals, c: usize, next: usize, end: usize) -> usize
    requires { c < NODES }
    ensures { NextPartner rows.now wanted c next end result }
{
    let clear = word_at(rows, c, REQUIRES) | word_at(rows, c, POSTS);
    let set = word_at(rows, c, REQUIRES + 1) | word_at(rows, c, POSTS + 1);
    if ((wanted.clear & clear) | (wanted.set & set)) == 0 {
        end
    } else {
        next
    }
}
