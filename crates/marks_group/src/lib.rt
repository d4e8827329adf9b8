// The row of an any-of or optional group from the rows of its children; that of an all-of group but for the pairs of
// children that clobber.
#![tactic(auto)]

ghost use Rattle.std.specs.Prelude.{◌≤◌, ◌<◌};
ghost use Rattle.marks_row.specs.Columns.{COLUMNS, RowIs};
ghost use Rattle.tables.specs.Segments.{AtSegment};
ghost use Rattle.tables.specs.Sizes.{NODES};
ghost use Rattle.marks_group.specs.Groups.{AnyRow, AllRow, JoinedWord, Merged, Unmerged};
ghost use Rattle.marks_group.specs.Masks.{mask_of};
ghost use Rattle.marks_group.specs.Empty.{with_empty};

use base::ALL;
use base::kinds::Kind;
use marks_row::columns::{AVOID, COVERED, END, MUST_INC};
use marks_row::{COLUMNS, Rows, Words, word_at};
use marks_siblings::{Siblings, all_siblings};
use std::array;
use tables::{Nodes, Orders, Segment};

// What each column of a child is masked by.
fn mask_words(s: Siblings) -> Words
    ensures { RowIs (mask_of s) result }
{
    [
        ALL,
        ALL,
        ALL,
        s.clear_before,
        s.set_before,
        s.avoid_before,
        s.avoid_before,
        s.avoid_after,
        s.avoid_after,
        ALL,
        ALL,
        ALL,
        ALL,
        ALL,
        ALL,
        ALL,
        ALL,
        ALL,
        ALL,
        ALL,
        ALL,
        s.silent_apart,
        s.silent_apart,
    ]
}

// The columns from `first` to `last`.
#[derive(Clone, Copy)]
struct Span {
    first: usize,
    last: usize,
}

// The words before the first child: ones in the columns of the span.
fn start_words(every: Span) -> Words
    requires { (every.first ≤ every.last) × (every.last ≤ COLUMNS) }
    ensures { Unmerged every.first every.last result }
{
    let mut out = [0u64; COLUMNS];
    out[every.first..every.last].fill(ALL);
    out
}

// The word of one child more in column k: in the span both have it; in the other columns one of them does, the child
// under the mask.
fn joined(every: Span, k: usize, word: u64, child: u64, mask: u64) -> u64
    ensures { JoinedWord every.first every.last k word child mask result }
{
    if (every.first..every.last).contains(&k) {
        word & child
    } else {
        word | (child & mask)
    }
}

// The words of one child more.
fn merged(every: Span, words: Words, rows: &Rows, child: usize, mask: Words) -> Words
    requires { child < NODES }
    ensures { Merged every.first every.last words rows.now child mask result }
{
    array::from_fn(|k| joined(every, k, words[k], word_at(rows, child, k), mask[k]))
}

// The words of one branch more, which has no tasks: it asserts nothing and asks for nothing, and has no must.
fn with_empty(words: Words) -> Words
    ensures { RowIs (with_empty words) result }
{
    [
        ALL, ALL, ALL, words[3], words[4], words[5], words[6], words[7], words[8], words[9],
        words[10], words[11], words[12], words[13], words[14], words[15], words[16], words[17],
        words[18], 0, 0, 0, 0,
    ]
}

// The row of an any-of or optional group, from the rows of its children.
pub fn any_words(kind: u8, kids: &Nodes, segment: Segment, rows: &Rows) -> Words
    requires { AtSegment kids.now segment }
    ensures { AnyRow kind kids.now segment rows.now result }
{
    let every = Span {
        first: MUST_INC,
        last: END,
    };
    let mask = [ALL; COLUMNS];
    let mut words = start_words(every);
    for i in segment.start..segment.end {
        // By `next`: a call's array cannot go straight to what a loop changes.
        let next = merged(every, words, rows, usize::from(kids[i]), mask);
        words = next;
    }
    if kind == Kind::Optional as u8 {
        with_empty(words)
    } else {
        words
    }
}

// What an all-of group shows by its children one by one, from their rows.
pub fn all_words(kids: &Nodes, segment: Segment, order: &Orders, rows: &Rows) -> Words
    requires { AtSegment kids.now segment }
    ensures { AllRow kids.now segment order.now rows.now result }
{
    let every = Span {
        first: AVOID,
        last: COVERED,
    };
    let mut words = start_words(every);
    for i in segment.start..segment.end {
        let child = usize::from(kids[i]);
        let mask = mask_words(all_siblings(kids, segment, order, rows, child));
        // By `next`, as in `any_words`.
        let next = merged(every, words, rows, child, mask);
        words = next;
    }
    words
}
