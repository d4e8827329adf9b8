// The first sequence of the root's children, each wholly before the next, under which the answer is CLEAR (02: a serial
// order).
#![tactic(auto)]

ghost use Rattle.std.specs.Prelude.{◌≡◌, ◌<◌};
ghost use Rattle.plan_rules.specs.Rules.{refusal};
ghost use Rattle.sequence_search.specs.Search.{count, InRange};
ghost use Rattle.sequence.specs.Sequence.{Sequenced};
ghost use Rattle.sequence.specs.Inner.{MaskOf, MasksOf, CalmIn, AnswersFrom, AnswersOf};

use answers::Refusal;
use base::kinds::Kind;
use marks_row::columns::MAY_CLOBBER;
use marks_row::{ROWS, Rows, word_at};
use marks_tree::rows_below;
use node_sets::all_nodes;
use plan_check::check;
use plan_format::fields::nodes;
use sequence_search::{CHILDREN, Masks, Reach, search};
use table_all::fill_among;
use tables::codes::Relation;
use tables::{CONDITIONS, NODES, Nodes, Orders, PAIRS, STARTS, Segment, children};
use verdict::start_word;

// The places of the children that stand before the one at place i.
fn before_mask(order: &Orders, kids: &Nodes, segment: Segment, i: usize) -> u64
    requires { InRange kids.now segment × (i < count segment) }
    ensures { MaskOf order.now kids.now segment i result }
{
    let later = usize::from(kids[segment.start + i]);
    let mut mask = 0;
    for j in 0..segment.end - segment.start {
        let earlier = usize::from(kids[segment.start + j]);
        if order[earlier * NODES + later] == Relation::Before as u8 {
            mask |= 1u64 << j;
        }
    }
    mask
}

// The same for each place.
fn before_masks(order: &Orders, kids: &Nodes, segment: Segment) -> Masks
    requires { InRange kids.now segment }
    ensures { MasksOf order.now kids.now segment result }
{
    let mut masks = [0; CHILDREN];
    for i in 0..segment.end - segment.start {
        masks[i] = before_mask(order, kids, segment, i);
    }
    masks
}

// Whether no child may clobber a literal inside itself.
fn calm(rows: &Rows, kids: &Nodes, segment: Segment) -> bool
    requires { InRange kids.now segment }
    ensures { CalmIn rows.now kids.now segment result }
{
    kids[segment.start..segment.end].iter().all(|kid| {
        let child = usize::from(*kid);
        word_at(rows, child, MAY_CLOBBER) | word_at(rows, child, MAY_CLOBBER + 1) == 0
    })
}

// The first sequence of the children in a segment, from their rows and relation codes and the flags set at the start.
fn first_among(
    kids: &Nodes,
    segment: Segment,
    order: &Orders,
    rows: &Rows,
    start: u64,
) -> Result<u64, Refusal>
    requires { InRange kids.now segment }
    ensures { AnswersFrom kids.now segment order.now rows.now start result }
{
    if !calm(rows, kids, segment) {
        return Err(Refusal::NoSequence);
    }
    let count = segment.end - segment.start;
    let before = before_masks(order, kids, segment);
    let reach = Reach {
        left: count,
        seen: 0,
        set: start,
        clear: !start,
    };
    let rest = search(rows, kids, segment, &before, reach).ok_or(Refusal::NoSequence)?;
    Ok(((count as u64) << 56) | rest)
}

// The answer for an accepted plan: 23, 24 or a sequence as a word, how many nodes in the highest byte, the nodes below,
// the first in the lowest. The rows below the root are worked out once.
fn first_sequence(plan: &[u8]) -> Result<u64, Refusal>
    requires { refusal plan.now ≡ 0 }
    ensures { AnswersOf plan.now result }
{
    let standing = all_nodes();
    let mut kind = [0; NODES];
    let mut from = [0; STARTS];
    let mut kids = [0; NODES];
    let mut order = [0; PAIRS];
    let mut conds = [0; CONDITIONS];
    fill_among(
        plan, &standing, &mut kind, &mut from, &mut kids, &mut order, &mut conds,
    );
    let segment = children(&from, 0);
    if kind[0] != Kind::AllOf as u8 || segment.end - segment.start > CHILDREN {
        return Err(Refusal::UnfitRoot);
    }
    let n = nodes(plan);
    let mut rows = [0; ROWS];
    rows_below(&kind, &from, &kids, &order, &conds, &mut rows, n);
    let start = start_word(plan);
    first_among(&kids, segment, &order, &rows, start)
}

// A refusal, 1 to 14, 23 or 24, or the first sequence, in dictionary order, of all the root's children under which the
// answer is CLEAR.
pub fn sequence(plan: &[u8]) -> Result<u64, Refusal>
    ensures { Sequenced plan.now result }
{
    check(plan)?;
    first_sequence(plan)
}
