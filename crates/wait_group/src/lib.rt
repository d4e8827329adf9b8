// One group of an accepted plan: its length and the waits of its children, from the lengths of the children.
#![tactic(auto)]

ghost use Rattle.std.specs.Prelude.{◌≡◌, ◌<◌, ℕ, length, get_or};
ghost use Rattle.plan_format.specs.Format.{order_count, earlier_of, is_kind, is_choice};
ghost use Rattle.plan_format.specs.Whole.{Whole};
ghost use Rattle.plan_rules.specs.Rules.{refusal};
ghost use Rattle.wait_lengths.specs.Waits.{length_of};
ghost use Rattle.tables.specs.Sizes.{NODES};
ghost use Rattle.wait_group.specs.Spread.{FirstOrder, Raised, GroupOf, Tables, ChildLengths, Spread};

use plan_format::fields::{conditions, earlier, later, nodes, orders};
use tables::{Nodes, Starts, Times, children};

// The earlier nodes of all orders.
fn earlier_nodes(plan: &[u8]) -> &[u8]
    requires { Whole plan.now }
    ensures long { length result.now ≡ order_count plan.now }
    ensures each { (j : ℕ) → j < order_count plan.now → get_or result.now j 0 ≡ earlier_of plan.now j }
{
    let at = 16 + 8 * nodes(plan) + 3 * conditions(plan);
    &plan[at..at + orders(plan)]
}

// The first order whose earlier node is c or higher: orders rise by their earlier nodes.
fn first_order(plan: &[u8], c: usize) -> usize
    requires { refusal plan.now ≡ 0 }
    ensures { FirstOrder plan.now c result }
{
    earlier_nodes(plan).partition_point(|e| usize::from(*e) < c)
}

// Raises the waits of all that c stands before by an order to the end of c.
fn raise(plan: &[u8], waits: &mut Times, c: usize, end: u32)
    requires { (refusal plan.now ≡ 0) × (length waits.old ≡ NODES) }
    ensures { Raised plan.now waits.old waits.new c end }
{
    for j in first_order(plan, c)..orders(plan) {
        if usize::from(earlier(plan, j)) != c {
            return;
        }
        let l = usize::from(later(plan, j));
        waits[l] = waits[l].max(end);
    }
}

// Works out the waits of the children of an all-of group, in the order of their numbers, and answers the length of the
// group.
pub fn spread(
    plan: &[u8],
    from: &Starts,
    kids: &Nodes,
    lengths: &Times,
    waits: &mut Times,
    node: usize,
) -> u32
    requires { GroupOf plan.now from.now kids.now (is_kind plan.now node 1) node
        × Tables plan.now lengths.now waits.old × ChildLengths plan.now lengths.now node }
    ensures { Spread plan.now lengths.now waits.old
        waits.new node result }
{
    let mut longest = 0u32;
    let segment = children(from, node);
    for i in segment.start..segment.end {
        let child = usize::from(kids[i]);
        let child_end = waits[child] + lengths[child];
        raise(plan, waits, child, child_end);
        longest = longest.max(child_end);
    }
    longest
}

// The length of an any-of or optional group, from those of its children.
pub fn longest_child(plan: &[u8], from: &Starts, kids: &Nodes, lengths: &Times, node: usize) -> u32
    requires { GroupOf plan.now from.now kids.now (is_choice plan.now node) node
        × ChildLengths plan.now lengths.now node }
    ensures { result ≡ length_of plan.now node }
{
    let mut longest = 0u32;
    let segment = children(from, node);
    for i in segment.start..segment.end {
        longest = longest.max(lengths[usize::from(kids[i])]);
    }
    longest
}
