// Lengths and longest waits of an accepted plan, by functions for all-of groups and for any-of and optional groups that
// call each other, by way of one that goes over the children.
#![tactic(auto)]

ghost use Rattle.std.specs.Prelude.{◌≡◌, true, length};
ghost use Rattle.plan_format.specs.Format.{is_kind, is_choice};
ghost use Rattle.plan_rules.specs.Rules.{refusal};
ghost use Rattle.base.specs.Zeros.{Zeros};
ghost use Rattle.table_children.specs.Children.{TreeOf};
ghost use Rattle.wait_lengths.specs.Waits.{length_of};
ghost use Rattle.wait_group.specs.Spread.{GroupOf, Tables};
ghost use Rattle.tables.specs.Sizes.{NODES};
ghost use Rattle.tables.specs.Segments.{segment_of};
ghost use Rattle.wait_tree.specs.Filled.{LengthsTo, LengthsUnder, AllWorked, WaitsWithin, Longest};

use base::kinds::Kind;
use plan_format::fields::{kind, minutes, nodes, parent};
use tables::{NODES, Nodes, Starts, Times, children};
use wait_group::{longest_child, spread};

// Works out all groups under a group, child by child.
#[cycle(all_length_any_length_groups_under)]
fn groups_under(
    plan: &[u8],
    from: &Starts,
    kids: &Nodes,
    lengths: &mut Times,
    waits: &mut Times,
    node: usize,
)
    requires { GroupOf plan.now from.now kids.now true node × Tables plan.now lengths.old waits.old }
    ensures { LengthsTo plan.now kids.now (segment_of from.now node)
        lengths.old waits.old lengths.new waits.new
        (segment_of from.now node).end }
{
    let segment = children(from, node);
    for i in segment.start..segment.end {
        let child = usize::from(kids[i]);
        let k = kind(plan, child);
        if k == Kind::AllOf as u8 {
            all_length(plan, from, kids, lengths, waits, child);
        } else if k != Kind::Task as u8 {
            any_length(plan, from, kids, lengths, waits, child);
        }
    }
}

// Works out an all-of group and all groups under it: the lengths, and the waits of the children.
#[cycle(all_length_any_length_groups_under)]
fn all_length(
    plan: &[u8],
    from: &Starts,
    kids: &Nodes,
    lengths: &mut Times,
    waits: &mut Times,
    node: usize,
)
    requires { GroupOf plan.now from.now kids.now (is_kind plan.now node 1) node
        × Tables plan.now lengths.old waits.old }
    ensures { LengthsUnder plan.now lengths.old waits.old lengths.new
        waits.new node }
{
    groups_under(plan, from, kids, lengths, waits, node);
    lengths[node] = spread(plan, from, kids, lengths, waits, node);
}

// Works out an any-of or optional group and all groups under it.
#[cycle(all_length_any_length_groups_under)]
fn any_length(
    plan: &[u8],
    from: &Starts,
    kids: &Nodes,
    lengths: &mut Times,
    waits: &mut Times,
    node: usize,
)
    requires { GroupOf plan.now from.now kids.now (is_choice plan.now node) node
        × Tables plan.now lengths.old waits.old }
    ensures { LengthsUnder plan.now lengths.old waits.old lengths.new
        waits.new node }
{
    groups_under(plan, from, kids, lengths, waits, node);
    lengths[node] = longest_child(plan, from, kids, lengths, node);
}

// The lengths of the tasks.
fn task_lengths(plan: &[u8], lengths: &mut Times, waits: &Times)
    requires { (refusal plan.now ≡ 0) × (length lengths.old ≡ NODES) × Zeros NODES waits.now }
    ensures { Tables plan.now lengths.new waits.now }
{
    for t in 0..nodes(plan) {
        if kind(plan, t) == Kind::Task as u8 {
            lengths[t] = u32::from(minutes(plan, t));
        }
    }
}

// All groups.
fn work_out(plan: &[u8], from: &Starts, kids: &Nodes, lengths: &mut Times, waits: &mut Times)
    requires { (refusal plan.now ≡ 0) × TreeOf plan.now from.now kids.now × (length lengths.old ≡ NODES)
        × Zeros NODES waits.old }
    ensures { AllWorked plan.now lengths.new waits.new }
{
    task_lengths(plan, lengths, waits);
    let root = kind(plan, 0);
    if root == Kind::AllOf as u8 {
        all_length(plan, from, kids, lengths, waits, 0);
    } else if root != Kind::Task as u8 {
        any_length(plan, from, kids, lengths, waits, 0);
    }
}

// From the root down: to the wait within its group each node adds the longest wait of its parent, which has the lower
// number.
fn add_waits(plan: &[u8], waits: &mut Times)
    requires { (refusal plan.now ≡ 0) × WaitsWithin plan.now waits.old }
    ensures { Longest plan.now waits.new }
{
    for c in 1..nodes(plan) {
        let p = usize::from(parent(plan, c));
        waits[c] += waits[p];
    }
}

// The longest waits of all nodes, and the length of the root, from the table of children.
pub fn longest_waits(plan: &[u8], from: &Starts, kids: &Nodes, waits: &mut Times) -> u32
    requires { (refusal plan.now ≡ 0) × TreeOf plan.now from.now kids.now × Zeros NODES waits.old }
    ensures { Longest plan.now waits.new × (result ≡ length_of plan.now 0) }
{
    let mut lengths = [0; NODES];
    work_out(plan, from, kids, &mut lengths, waits);
    add_waits(plan, waits);
    lengths[0]
}
