// The pairs of children of an all-of group that may clobber a literal: a search that ends as soon as a pair is found,
// asked again for what is still wanted.
#![tactic(auto)]

ghost use Rattle.tables.specs.Segments.{AtSegment};
ghost use Rattle.marks_may_pairs.specs.Search.{SearchedTo, Search, AllPairs};

use marks_between::Partners;
use marks_pair::{Literals, next_partner, pair_words};
use marks_row::Rows;
use tables::{Nodes, Orders, Segment};

// Where a search stands: the positions of a child and of its partner.
#[derive(Clone, Copy)]
pub struct Cursor {
    pub child: usize,
    pub partner: usize,
}

// The literals of the pair at which a search stopped, and where it stands.
#[derive(Clone, Copy)]
pub struct Found {
    pub literals: Literals,
    pub at: Cursor,
}

// Looks for a pair of children that clobbers a wanted literal, from where the search stands; it ends as soon as one is
// found. None: no pair is left.
pub fn clobbering_pair(
    kids: &Nodes,
    segment: Segment,
    order: &Orders,
    rows: &Rows,
    wanted: Literals,
    cursor: Cursor,
) -> Option<Found>
    requires { AtSegment kids.now segment
        × SearchedTo kids.now segment order.now rows.now wanted cursor.child cursor.partner }
    ensures { Search kids.now segment order.now rows.now wanted result }
{
    let mut found = None;
    let mut first = cursor.partner;
    'search: for i in cursor.child..segment.end {
        let c = usize::from(kids[i]);
        for j in next_partner(rows, wanted, c, first, segment.end)..segment.end {
            let partners = Partners { child: c, at: j };
            let pair = pair_words(kids, segment, order, rows, wanted, partners);
            if (pair.clear | pair.set) != 0 {
                let at = Cursor {
                    child: i,
                    partner: j,
                };
                found = Some(Found { literals: pair, at });
                break 'search;
            }
        }
        first = segment.start;
    }
    found
}

// The wanted literals that some pair of children clobbers: the search is asked again for those still wanted, and goes
// on at the pair where it stood.
pub fn clobbering_pairs(
    kids: &Nodes,
    segment: Segment,
    order: &Orders,
    rows: &Rows,
    wanted: Literals,
) -> Literals
    requires { AtSegment kids.now segment }
    ensures { AllPairs kids.now segment order.now rows.now wanted result }
{
    let mut left = wanted;
    let mut found = Literals { clear: 0, set: 0 };
    let mut cursor = Cursor {
        child: segment.start,
        partner: segment.start,
    };
    while let Some(next) = clobbering_pair(kids, segment, order, rows, left, cursor) {
        let pair = next.literals;
        cursor = next.at;
        found.clear |= pair.clear;
        found.set |= pair.set;
        left.clear ^= left.clear & pair.clear;
        left.set ^= left.set & pair.set;
    }
    found
}
