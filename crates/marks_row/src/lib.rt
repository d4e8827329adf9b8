// Rows of words, one for each column (specs/Columns.antt): bit f of a word speaks of flag f. The rows of tasks; what is
// read off a row.
#![tactic(auto)]

pub mod columns;

ghost use Rattle.std.specs.Prelude.{◌≡◌, Bool, ◌+◌, ◌*◌, ◌<◌, length, get_or};
ghost use Rattle.std.specs.Int.Bits.{bit_or, bit_xor};
ghost use Rattle.base.specs.Words.{ones};
ghost use Rattle.runs.specs.Plan.{Plan, sign_number};
ghost use Rattle.tables.specs.Sizes.{NODES, WORDS};
ghost use Rattle.marks_row.specs.Columns.{COLUMNS, ROWS, word_at, Row, RowWritten};
ghost use Rattle.marks_row.specs.Tasks.{AtTask, WordsOfSign};
ghost use Rattle.marks_row.specs.Musts.{MustPreWord, MustPostWord};

use columns::{AVOID, COVERED, MAY_POST, QUIET};
use tables::{Conditions, NODES, WORDS};

// The columns of a row, and the words of all rows.
pub const COLUMNS: usize = columns::END;

pub const ROWS: usize = NODES * COLUMNS;

// One row; the rows of all nodes.
pub type Words = [u64; COLUMNS];

pub type Rows = [u64; ROWS];

// The words of a task for one sign.
#[derive(Drop)]
pub struct SignWords {
    pub quiet: u64,
    pub covered: u64,
    pub pre: u64,
    pub post: u64,
    pub inc: u64,
    pub pre_or_inc: u64,
    pub inc_or_post: u64,
}

fn condition_word(conds: &Conditions, node: usize, at: usize) -> u64
    requires { (node < NODES) × (at < WORDS) }
    ensures { result ≡ get_or conds.now (node * WORDS + at) 0 }
{
    conds[node * WORDS + at]
}

// A task has one execution, so its facts are read off its conditions. An incondition's flag has a postcondition too.
fn words_of_sign(conds: &Conditions, node: usize, sign: usize) -> SignWords
    requires { (node < NODES) × (sign < 2) }
    ensures { (p : Plan) → AtTask conds.now node p → (v : Bool) → sign ≡ sign_number v
        → WordsOfSign p node v result }
{
    let pre = condition_word(conds, node, sign);
    let inc = condition_word(conds, node, 2 + sign);
    let post = condition_word(conds, node, 4 + sign);
    let asserted = condition_word(conds, node, 4) | condition_word(conds, node, 5);
    let silent = !asserted;
    SignWords {
        quiet: silent & !pre,
        covered: asserted & !pre,
        pre,
        post,
        inc,
        pre_or_inc: pre | inc,
        inc_or_post: inc | post,
    }
}

// The row of a task.
pub fn task_words(conds: &Conditions, node: usize) -> Words
    requires { node < NODES }
    ensures { (p : Plan) → AtTask conds.now node p → Row p node result }
{
    let asserted = condition_word(conds, node, 4) | condition_word(conds, node, 5);
    let clear = words_of_sign(conds, node, 0);
    let set = words_of_sign(conds, node, 1);
    [
        !asserted,
        clear.quiet,
        set.quiet,
        clear.covered,
        set.covered,
        clear.pre,
        set.pre,
        clear.post,
        set.post,
        clear.inc,
        set.inc,
        clear.pre_or_inc,
        set.pre_or_inc,
        clear.inc_or_post,
        set.inc_or_post,
        clear.post,
        set.post,
        0,
        0,
        clear.inc,
        set.inc,
        0,
        0,
    ]
}

pub fn write_row(rows: &mut Rows, node: usize, words: Words)
    requires { (node < NODES) × (length rows.old ≡ ROWS) }
    ensures { RowWritten rows.old rows.new node words }
{
    // Word by word: a copy of the whole row would keep the words in memory, at each level of `marks_tree`'s recursion.
    for k in 0..COLUMNS {
        rows[node * COLUMNS + k] = words[k];
    }
}

// The word of a node in a column.
pub fn word_at(rows: &Rows, node: usize, k: usize) -> u64
    requires { (node < NODES) × (k < COLUMNS) }
    ensures { result ≡ word_at rows.now node k }
{
    rows[node * COLUMNS + k]
}

// The flags that a node has in neither of two columns.
pub fn neither(rows: &Rows, node: usize, j: usize, k: usize) -> u64
    requires { (node < NODES) × ((j < COLUMNS) × (k < COLUMNS)) }
    ensures { result ≡ bit_xor (bit_or (word_at rows.now node j) (word_at rows.now node k)) ones }
{
    let x = word_at(rows, node, j);
    let y = word_at(rows, node, k);
    !(x | y)
}

// The literals of one sign that are external preconditions in every completed execution: the node is neither quiet nor
// covered.
pub fn must_pre(rows: &Rows, node: usize, sign: usize) -> u64
    requires { (node < NODES) × (sign < 2) }
    ensures { MustPreWord rows.now node sign result }
{
    neither(rows, node, QUIET + sign, COVERED + sign)
}

// The literals of one sign that are external postconditions in every completed execution: none avoids the flag or
// asserts the opposite last.
pub fn must_post(rows: &Rows, node: usize, sign: usize) -> u64
    requires { (node < NODES) × (sign < 2) }
    ensures { MustPostWord rows.now node sign result }
{
    neither(rows, node, AVOID, MAY_POST + (1 - sign))
}
