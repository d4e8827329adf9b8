// Rule (b) of must clobber: the pairs of children of an all-of group that clobber a literal in every completed
// execution; for all flags at once.
#![tactic(auto)]

ghost use Rattle.std.specs.Prelude.{◌<◌, get_or};
ghost use Rattle.tables.specs.Segments.{AtSegment, AtPair};
ghost use Rattle.marks_between.specs.Passing.{PairWord};
ghost use Rattle.tables.specs.Sizes.{NODES};
ghost use Rattle.marks_must_pairs.specs.MustPairs.{MustPair, WithChildWord, MustPairsWord};

use base::ALL;
use marks_between::{OfSign, Partners, ToPass, passing};
use marks_row::{Rows, must_post, must_pre};
use tables::codes::Relation;
use tables::{NODES, Nodes, Orders, Segment};

// The wanted flags of one sign that a child and its partner must clobber.
fn must_pair_word(
    kids: &Nodes,
    segment: Segment,
    order: &Orders,
    rows: &Rows,
    wanted: OfSign,
    partners: Partners,
) -> u64
    requires { AtPair kids.now segment partners.child partners.at × (wanted.sign < 2) }
    ensures { PairWord MustPair kids.now segment order.now
        rows.now wanted.sign wanted.flags partners.child
        (get_or kids.now partners.at 0) result }
{
    let c = partners.child;
    let j = partners.at;
    let d = usize::from(kids[j]);
    let sign = wanted.sign;
    if order[c * NODES + d] == Relation::After as u8 {
        let shared = wanted.flags & (must_post(rows, d, 1 - sign) & must_pre(rows, c, sign));
        if shared == 0 {
            return 0;
        }
        let given = ToPass {
            always: true,
            flags: shared,
        };
        passing(kids, segment, order, rows, given, partners)
    } else {
        0
    }
}

// The flags already known, and those that a pair with the child c must clobber: only those that c requires in every
// completed execution.
fn must_pairs_of(
    kids: &Nodes,
    segment: Segment,
    order: &Orders,
    rows: &Rows,
    known: OfSign,
    c: usize,
) -> u64
    requires { AtSegment kids.now segment × ((known.sign < 2) × (c < NODES)) }
    ensures { WithChildWord kids.now segment order.now
        rows.now known.sign known.flags c result }
{
    let sign = known.sign;
    let mut flags = known.flags;
    if (flags ^ ALL) & must_pre(rows, c, sign) == 0 {
        return flags;
    }
    for j in segment.start..segment.end {
        let wanted = OfSign {
            sign,
            flags: flags ^ ALL,
        };
        let partners = Partners { child: c, at: j };
        flags |= must_pair_word(kids, segment, order, rows, wanted, partners);
    }
    flags
}

// The flags already known, and those that some pair of children must clobber.
pub fn must_pairs(kids: &Nodes, segment: Segment, order: &Orders, rows: &Rows, known: OfSign) -> u64
    requires { AtSegment kids.now segment × (known.sign < 2) }
    ensures { MustPairsWord kids.now segment order.now rows.now
        known.sign known.flags result }
{
    let sign = known.sign;
    let mut flags = known.flags;
    for i in segment.start..segment.end {
        let found = OfSign { sign, flags };
        flags = must_pairs_of(kids, segment, order, rows, found, usize::from(kids[i]));
    }
    flags
}
