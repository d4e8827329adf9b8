// The marks of a node as words over the flags, from its row and from any tables that represent a plan; the literals
// that fail at the root.
#![tactic(auto)]

pub mod marks;

ghost use Rattle.std.specs.Prelude.{◌≡◌, ◌<◌, length, get_or};
ghost use Rattle.tables.specs.Sizes.{NODES};
ghost use Rattle.tables.specs.Represents.{AtGroup};
ghost use Rattle.marks_row.specs.Columns.{ROWS};
ghost use Rattle.marks_words.specs.Words.{first_words, WordIs, WordsAre, FailsWord};
ghost use Rattle.marks_words.specs.Tables.{NodeWords};

use marks_row::{ROWS, Rows, columns, must_post, must_pre, word_at};
use marks_tree::node_rows;
use std::array;
use tables::{Conditions, Nodes, Orders, Starts};

// The words of a node: by sign and mark.
pub type Marks = [u64; 16];

// The first word of a mark's column; there is a word for each sign, clear and set.
fn column(mark: usize) -> usize
    requires { mark < 8 }
    ensures { result ≡ get_or first_words mark 0 }
{
    match mark {
        marks::MAY_PRE => columns::MAY_PRE,
        marks::MAY_POST => columns::MAY_POST,
        marks::MAY_INC => columns::MAY_INC,
        marks::MUST_INC => columns::MUST_INC,
        marks::MAY_CLOBBER => columns::MAY_CLOBBER,
        marks::MUST_CLOBBER => columns::MUST_CLOBBER,
        _ => 0,
    }
}

// The word of a node for one sign and one mark: k is mark + 8 * sign. Two marks are worked out from two columns each.
fn mark_word(rows: &Rows, node: usize, k: usize) -> u64
    requires { (node < NODES) × (k < 16) }
    ensures { WordIs rows.now node k result }
{
    let sign = k / 8;
    match k % 8 {
        marks::MUST_PRE => must_pre(rows, node, sign),
        marks::MUST_POST => must_post(rows, node, sign),
        mark => word_at(rows, node, column(mark) + sign),
    }
}

// The sixteen words of a node.
pub fn mark_words(rows: &Rows, node: usize) -> Marks
    requires { node < NODES }
    ensures { WordsAre rows.now node result }
{
    array::from_fn(|k| mark_word(rows, node, k))
}

// The words of a node, from any tables that represent a plan: the rows of all nodes, then the words of one.
pub fn node_words(
    kind: &Nodes,
    from: &Starts,
    kids: &Nodes,
    order: &Orders,
    conds: &Conditions,
    n: usize,
    node: usize,
) -> Marks
    requires { AtGroup from.now kids.now n 0 × (node < NODES) }
    ensures { NodeWords kind.now from.now kids.now order.now
        conds.now n node result }
{
    let mut rows = [0; ROWS];
    node_rows(kind, from, kids, order, conds, &mut rows, n);
    mark_words(&rows, node)
}

// The flags with a literal that has one mark, or is false at the start and has the other.
pub fn failing(words: &Marks, start: u64, mark: usize, other: usize) -> u64
    requires { (mark < 8) × (other < 8) }
    ensures { FailsWord words.now start mark other result }
{
    let marked = words[mark] | words[mark + 8];
    let clear = words[other] & start;
    let set = words[other + 8] ^ (words[other + 8] & start);
    marked | (clear | set)
}
