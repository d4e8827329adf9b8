// The rows of a plan's nodes, by functions that call each other: for all_of groups, and for any-of and optional groups;
// for the children of a group, and for a node of either kind.
#![tactic(auto)]

ghost use Rattle.std.specs.Prelude.{◌≡◌, ◌≤◌, ◌<◌, length};
ghost use Rattle.runs.specs.Plan.{all_of, Picks};
ghost use Rattle.marks_row.specs.Columns.{RowIs};
ghost use Rattle.tables.specs.Segments.{segment_of, AtSegment};
ghost use Rattle.tables.specs.Represents.{AtGroup};
ghost use Rattle.marks_row.specs.Columns.{ROWS};
ghost use Rattle.tables.specs.Sizes.{NODES};
ghost use Rattle.marks_tree.specs.Clobbers.{AllOfRow, OpenLiterals, clobber_of, Ored};
ghost use Rattle.marks_tree.specs.Filled.{OfAny, ChildrenTo, Filled, TasksFilled, AllFilled, BelowFilled};

use base::kinds::Kind;
use marks_between::OfSign;
use marks_group::{all_words, any_words};
use marks_may_pairs::clobbering_pairs;
use marks_must_pairs::must_pairs;
use marks_pair::Literals;
use marks_row::columns::{ASSERTS, MAY_CLOBBER, MUST_CLOBBER, POSTS, REQUIRES};
use marks_row::{Rows, Words, task_words, write_row};
use std::array;
use tables::{Conditions, Nodes, Orders, Segment, Starts, children};

// A row with the words of may and must clobber only.
fn clobber_words(may: Literals, must: Literals) -> Words
    ensures { RowIs (clobber_of may must) result }
{
    [
        0, 0, 0, 0, 0, 0, 0, 0, 0, 0, 0, 0, 0, 0, 0, 0, 0, may.clear, may.set, 0, 0, must.clear,
        must.set,
    ]
}

fn ored(a: Words, b: Words) -> Words
    ensures { Ored a b result }
{
    array::from_fn(|k| a[k] | b[k])
}

// The literals that a pair of children of an all_of group can clobber where no child does: some task under the group
// requires the literal and some task asserts the opposite, or the flag is left both ways.
fn open_literals(words: Words) -> Literals
    ensures { OpenLiterals words result }
{
    let left = words[POSTS] & words[POSTS + 1];
    let clear = (words[REQUIRES] & words[ASSERTS + 1]) | left;
    let set = (words[REQUIRES + 1] & words[ASSERTS]) | left;
    Literals {
        clear: clear ^ (clear & words[MAY_CLOBBER]),
        set: set ^ (set & words[MAY_CLOBBER + 1]),
    }
}

// The row of an all_of group, from the rows of its children.
fn all_row(kids: &Nodes, segment: Segment, order: &Orders, rows: &Rows) -> Words
    requires { AtSegment kids.now segment }
    ensures { AllOfRow kids.now segment order.now rows.now result }
{
    let words = all_words(kids, segment, order, rows);
    let wanted = open_literals(words);
    let may = clobbering_pairs(kids, segment, order, rows, wanted);
    let known_clear = OfSign {
        sign: 0,
        flags: words[MUST_CLOBBER],
    };
    let known_set = OfSign {
        sign: 1,
        flags: words[MUST_CLOBBER + 1],
    };
    let clear = must_pairs(kids, segment, order, rows, known_clear);
    let set = must_pairs(kids, segment, order, rows, known_set);
    let clobbers = clobber_words(may, Literals { clear, set });
    ored(words, clobbers)
}

// Works out the rows of a node and of all under it, those of the tasks excepted.
#[cycle(all_of_any_of_group_groups_under)]
fn group(
    kind: &Nodes,
    from: &Starts,
    kids: &Nodes,
    order: &Orders,
    rows: &mut Rows,
    n: usize,
    node: usize,
)
    requires { AtGroup from.now kids.now n node × (length rows.old ≡ ROWS) }
    ensures { Filled OfAny kind.now from.now kids.now order.now
        rows.old rows.new n node }
{
    let k = kind[node];
    if k == Kind::AllOf as u8 {
        all_of(kind, from, kids, order, rows, n, node);
    } else if k != Kind::Task as u8 {
        any_of(kind, from, kids, order, rows, n, node);
    }
}

// Works out the rows of all groups under a group, child by child, and answers where its children are.
#[cycle(all_of_any_of_group_groups_under)]
fn groups_under(
    kind: &Nodes,
    from: &Starts,
    kids: &Nodes,
    order: &Orders,
    rows: &mut Rows,
    n: usize,
    node: usize,
) -> Segment
    requires { AtGroup from.now kids.now n node × (length rows.old ≡ ROWS) }
    ensures { (result ≡ segment_of from.now node) × ChildrenTo kind.now from.now
        kids.now order.now n node result rows.old rows.new result.end }
{
    let segment = children(from, node);
    for i in segment.start..segment.end {
        group(kind, from, kids, order, rows, n, usize::from(kids[i]));
    }
    segment
}

// Works out the rows of a node and of all under it, those of the tasks excepted, if the node is an all_of group.
#[cycle(all_of_any_of_group_groups_under)]
fn all_of(
    kind: &Nodes,
    from: &Starts,
    kids: &Nodes,
    order: &Orders,
    rows: &mut Rows,
    n: usize,
    node: usize,
)
    requires { AtGroup from.now kids.now n node × (length rows.old ≡ ROWS) }
    ensures { Filled (λ k. k ≡ all_of) kind.now from.now kids.now
        order.now
        rows.old rows.new n node }
{
    let segment = groups_under(kind, from, kids, order, rows, n, node);
    let words = all_row(kids, segment, order, rows);
    write_row(rows, node, words);
}

// Works out the rows of a node and of all under it, those of the tasks excepted, if one branch of the node is
// taken: an any-of or optional group.
#[cycle(all_of_any_of_group_groups_under)]
fn any_of(
    kind: &Nodes,
    from: &Starts,
    kids: &Nodes,
    order: &Orders,
    rows: &mut Rows,
    n: usize,
    node: usize,
)
    requires { AtGroup from.now kids.now n node × (length rows.old ≡ ROWS) }
    ensures { Filled Picks kind.now from.now kids.now order.now
        rows.old rows.new n node }
{
    let segment = groups_under(kind, from, kids, order, rows, n, node);
    let words = any_words(kind[node], kids, segment, rows);
    write_row(rows, node, words);
}

// Works out the rows of the tasks.
fn task_rows(kind: &Nodes, conds: &Conditions, rows: &mut Rows, n: usize)
    requires { (n ≤ NODES) × (length rows.old ≡ ROWS) }
    ensures { TasksFilled kind.now conds.now rows.new n }
{
    for i in 0..n {
        if kind[i] == Kind::Task as u8 {
            let words = task_words(conds, i);
            write_row(rows, i, words);
        }
    }
}

// Works out the rows of all nodes: those of the tasks, then those of the groups from the root down.
pub fn node_rows(
    kind: &Nodes,
    from: &Starts,
    kids: &Nodes,
    order: &Orders,
    conds: &Conditions,
    rows: &mut Rows,
    n: usize,
)
    requires { AtGroup from.now kids.now n 0 × (length rows.old ≡ ROWS) }
    ensures { AllFilled kind.now from.now kids.now order.now
        conds.now rows.new n }
{
    task_rows(kind, conds, rows, n);
    group(kind, from, kids, order, rows, n, 0);
}

// Works out the rows of all nodes but the root: those of the tasks, then those of the groups from its children down.
pub fn rows_below(
    kind: &Nodes,
    from: &Starts,
    kids: &Nodes,
    order: &Orders,
    conds: &Conditions,
    rows: &mut Rows,
    n: usize,
)
    requires { AtGroup from.now kids.now n 0 × (length rows.old ≡ ROWS) }
    ensures { BelowFilled kind.now from.now kids.now order.now
        conds.now rows.new n }
{
    task_rows(kind, conds, rows, n);
    groups_under(kind, from, kids, order, rows, n, 0);
}
