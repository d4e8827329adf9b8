// Refusals 19 and 20 of a start or a skip: another branch of an any-of or optional group above the node is begun (01:
// taken); an order's earlier node is not complete.
#![tactic(auto)]

ghost use Rattle.std.specs.Prelude.{◌≡◌, ℕ, ◌<◌, length, get_or};
ghost use Rattle.plan_format.specs.Format.{node_count, order_count, parent_of};
ghost use Rattle.plan_rules.specs.Rules.{refusal};
ghost use Rattle.runs.specs.Searches.{any_below};
ghost use Rattle.plan_check.specs.Meaning.{plan_of};
ghost use Rattle.runs.specs.Model.Monitor.{branch_begun_b};
ghost use Rattle.runs.specs.Model.Trees.{under_b};
ghost use Rattle.run_state.specs.State.{status_in};
ghost use Rattle.run_state.specs.Inner.{AtEvent, state_refusal};
ghost use Rattle.base.specs.Count.{num};
ghost use Rattle.run_progress.specs.Progress.{Counted};
ghost use Rattle.run_progress.specs.declared.Tally.TheVariants.{Begun, Ends};
ghost use Rattle.run_enabled.specs.Enabling.{rival_at, open_at};
ghost use Rattle.tables.specs.Sizes.{NODES};

use base::kinds::Kind;
use base::statuses::Status;
use plan_format::fields::{earlier, is_kind, later, orders, parent};
use run_progress::{is_begun, is_complete};
use tables::{NODES, Nodes};

// The parent g of node n is an any-of or optional group, and another branch of it than n is begun; a skip begins the
// one without tasks. The begun children of g are counted, n with them.
#[tactic(auto, unfolding(crate::specs::Enabling::rival_at, run_starts::specs::Starts::node_byte))]
fn rival_begun(plan: &[u8], state: &[u8], begun: &Nodes, g: usize, n: usize) -> bool
    requires n_nonzero { (0 < n) × ((n < node_count plan.now)
        × ((g ≡ parent_of plan.now n) × (state_refusal plan.now state.now ≡ 0))) }
    requires counted { Counted Begun plan.now state.now begun.now }
    ensures { result ≡ rival_at plan.now state.now g n }
{
    let skipped = state[8 + g] == Status::Done as u8;
    !is_kind(plan, g, Kind::AllOf)
        && (skipped || u8::from(is_begun(plan, state, begun, n)) < begun[g])
}

// 19: walks up from the node. A `while`: the walk ends at the root.
pub fn branch_begun(plan: &[u8], state: &[u8], begun: &Nodes, node: usize) -> bool
    requires at_event { AtEvent plan.now state.now node }
    requires counted { Counted Begun plan.now state.now begun.now }
    ensures { result ≡ branch_begun_b (plan_of plan.now)
        (status_in plan.now state.now) node }
{
    let mut n = node;
    while 0 < n {
        let g = usize::from(parent(plan, n));
        if rival_begun(plan, state, begun, g, n) {
            return true;
        }
        n = g;
    }
    false
}

// A mark at each node above the node, and at itself. A `while`: the walk ends at the root.
pub fn path(plan: &[u8], node: usize) -> Nodes
    requires { (node < node_count plan.now) × (refusal plan.now ≡ 0) }
    ensures { (length result ≡ NODES) × ((a : ℕ) → a < NODES
        → get_or result a 0 ≡ num (under_b (plan_of plan.now) a node)) }
{
    let mut marks = [0; NODES];
    let mut n = node;
    marks[n] = 1;
    while 0 < n {
        n = usize::from(parent(plan, n));
        marks[n] = 1;
    }
    marks
}

// Order j applies to a node whose path is marked, and its earlier node is not complete.
#[tactic(auto, unfolding(crate::specs::Enabling::open_at))]
fn open_at(plan: &[u8], state: &[u8], ends: &Nodes, marks: &Nodes, j: usize) -> bool
    requires j_bound { (j < order_count plan.now) × (state_refusal plan.now state.now ≡ 0) }
    requires counted { Counted Ends plan.now state.now ends.now }
    ensures { result ≡ open_at plan.now state.now marks.now j }
{
    let a = usize::from(earlier(plan, j));
    let z = usize::from(later(plan, j));
    marks[z] == 1 && !is_complete(plan, state, ends, a)
}

// 20: some order is open.
pub fn order_open(plan: &[u8], state: &[u8], ends: &Nodes, marks: &Nodes) -> bool
    requires state_value { state_refusal plan.now state.now ≡ 0 }
    requires counted { Counted Ends plan.now state.now ends.now }
    ensures { result ≡ any_below (order_count plan.now)
        (open_at plan.now state.now marks.now) }
{
    (0..orders(plan)).any(|j| open_at(plan, state, ends, marks, j))
}
