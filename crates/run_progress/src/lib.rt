// Which nodes are complete and which are begun (01: taken): one pass over the nodes from the last to the first, which
// counts children.
#![tactic(auto)]

ghost use Rattle.std.specs.Prelude.{◌≡◌, ◌<◌, length, get_or};
ghost use Rattle.plan_format.specs.Format.{node_count};
ghost use Rattle.plan_check.specs.Meaning.{plan_of};
ghost use Rattle.runs.specs.Model.Monitor.{complete_b, begun_b};
ghost use Rattle.run_state.specs.State.{status_in};
ghost use Rattle.run_state.specs.Inner.{state_refusal};
ghost use Rattle.run_progress.specs.Progress.{counted_at, children_counted, Counted};
ghost use Rattle.tables.specs.Sizes.{NODES};

use base::kinds::Kind;
use base::statuses::Status;
use plan_format::fields::{is_kind, nodes, parent};
use tables::{NODES, Nodes};

// Which children of a group are counted: those that are begun; or, for an all-of group those that are not complete, for
// another the complete ones.
#[derive(Clone, Copy)]
pub enum Tally {
    Begun,
    Ends,
}

// A byte that says done: a task is done, an optional group skipped; that of another group is 0. A task has no children.
pub fn is_complete(plan: &[u8], state: &[u8], ends: &Nodes, n: usize) -> bool
    requires { (n < node_count plan.now)
        × ((state_refusal plan.now state.now ≡ 0)
        × (get_or ends.now n 0 ≡ children_counted Tally.Ends plan.now state.now n)) }
    ensures { result ≡ complete_b (plan_of plan.now)
        (status_in plan.now state.now) n }
{
    if is_kind(plan, n, Kind::AllOf) {
        ends[n] == 0
    } else {
        ends[n] != 0 || state[8 + n] == Status::Done as u8
    }
}

pub fn is_begun(plan: &[u8], state: &[u8], begun: &Nodes, n: usize) -> bool
    requires { (n < node_count plan.now)
        × ((state_refusal plan.now state.now ≡ 0)
        × (get_or begun.now n 0 ≡ children_counted Tally.Begun plan.now state.now n)) }
    ensures { result ≡ begun_b (plan_of plan.now) (status_in plan.now state.now) n }
{
    state[8 + n] != Status::Waiting as u8 || begun[n] != 0
}

// A node and its parent.
#[derive(Drop)]
struct Link {
    parent: usize,
    node: usize,
}

// The node is counted at its parent.
fn is_counted(plan: &[u8], state: &[u8], tally: Tally, table: &Nodes, link: Link) -> bool
    requires { (link.node < node_count plan.now)
        × ((state_refusal plan.now state.now ≡ 0)
        × (get_or table.now link.node 0 ≡ children_counted tally plan.now state.now link.node)) }
    ensures { result ≡ counted_at tally plan.now state.now link.parent link.node }
{
    match tally {
        Tally::Begun => is_begun(plan, state, table, link.node),
        Tally::Ends => is_kind(plan, link.parent, Kind::AllOf)
            != is_complete(plan, state, table, link.node),
    }
}

// The number of counted children of each node.
pub fn children(plan: &[u8], state: &[u8], tally: Tally) -> Nodes
    requires { state_refusal plan.now state.now ≡ 0 }
    ensures { (length result ≡ NODES) × Counted tally plan.now state.now result }
{
    let mut table = [0; NODES];
    for c in (1..nodes(plan)).rev() {
        let g = usize::from(parent(plan, c));
        let link = Link { parent: g, node: c };
        if is_counted(plan, state, tally, &table, link) {
            table[g] += 1;
        }
    }
    table
}
