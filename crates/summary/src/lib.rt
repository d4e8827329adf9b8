// The summary of a node (01: sheet).
#![tactic(auto)]

ghost use Rattle.std.specs.Prelude.{◌≡◌, ◌/◌, ◌%◌, ◌^◌, ◌<◌, get_or};
ghost use Rattle.answers.specs.Refusals.{returned};
ghost use Rattle.node_sets.specs.Sets.{AllMarked};
ghost use Rattle.plan_format.specs.Format.{node_count};
ghost use Rattle.plan_rules.specs.Rules.{refusal};
ghost use Rattle.summary.specs.Summary.{Summarised};
ghost use Rattle.summary.specs.Inner.{UnderWords, Checked};

use answers::Refusal;
use marks_words::Marks;
use node_sets::all_nodes;
use plan_blocked::check_blocked;
use plan_format::fields::{flags, nodes};
use table_marks::node_marks;
use tables::Nodes;

// Refuses a call (1 to 14, 28, 29, 15, 17), or leaves of the marks those of the nodes that stand.
fn check_summary(
    plan: &[u8],
    blocked: &[usize],
    node: usize,
    out: &[u8],
    standing: &mut Nodes,
) -> Result<(), Refusal>
    requires { AllMarked standing.old }
    ensures { Checked plan.now blocked.now node out.now
        (returned result) standing.new }
{
    check_blocked(plan, blocked, standing)?;
    if out.len() < 16 * flags(plan) {
        return Err(Refusal::NoRoom);
    }
    if node >= nodes(plan) {
        return Err(Refusal::NoSuchNode);
    }
    Ok(())
}

// The marks of a node: none, if it does not stand.
fn under_words(plan: &[u8], standing: &Nodes, node: usize) -> Marks
    requires { (refusal plan.now ≡ 0) × (node < node_count plan.now) }
    ensures { UnderWords plan.now standing.now node result }
{
    if standing[node] == 1 {
        node_marks(plan, standing, node)
    } else {
        [0; 16]
    }
}

// Byte i of a summary: entry i / 8 is 2 f + sign.
fn mark_byte(words: &Marks, i: usize) -> u8
    requires { i < 1024 }
    ensures { result ≡ get_or words.now (i % 16) 0 / 2 ^ (i / 16) % 2 }
{
    ((words[i % 16] >> (i / 16)) % 2) as u8
}

// Writes the summary of a node; refused, nothing changes.
pub fn summary(plan: &[u8], blocked: &[usize], node: usize, out: &mut [u8]) -> Result<(), Refusal>
    ensures { Summarised plan.now blocked.now node out.old (returned result)
        out.new }
{
    let mut standing = all_nodes();
    check_summary(plan, blocked, node, out, &mut standing)?;
    let words = under_words(plan, &standing, node);
    for i in 0..16 * flags(plan) {
        out[i] = mark_byte(&words, i);
    }
    Ok(())
}
