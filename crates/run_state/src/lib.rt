// The bytes of a state (01: record): the checks that every call makes first, and the fresh state.
#![tactic(auto)]

ghost use Rattle.std.specs.Prelude.{◌≡◌, ◌+◌, ◌<◌, ◌≤◌, length};
ghost use Rattle.answers.specs.Refusals.{returned};
ghost use Rattle.plan_format.specs.Format.{node_count};
ghost use Rattle.runs.specs.Searches.{any_below};
ghost use Rattle.node_sets.specs.Sets.{AllMarked};
ghost use Rattle.run_starts.specs.Inner.{StateFits};
ghost use Rattle.run_state.specs.State.{bad_flag, room_refusal_under, state_refusal_under};
ghost use Rattle.run_state.specs.Inner.{bad_byte_in, bad_node_in, StateChecked};
ghost use Rattle.run_state.specs.Fresh.{Freshened};

use answers::Refusal;
use base::kinds::Kind;
use base::statuses::Status;
use node_sets::all_nodes;
use plan_blocked::check_blocked;
use plan_format::fields::{flags, is_kind, nodes};
use run_flags::load;
use run_starts::{is_stray, ordinals_bad};
use tables::Nodes;

// A bit for a flag of number v or higher.
fn flags_bad(plan: &[u8], state: &[u8]) -> bool
    requires { (16 ≤ length plan.now) × (8 ≤ length state.now) }
    ensures { result ≡ any_below 64 (bad_flag plan.now state.now) }
{
    let v = flags(plan);
    let held = load(state);
    (0..64).any(|f| v <= f && held.has(f))
}

// The byte of node n is none that it may have: one that does not stand waits.
fn byte_bad(plan: &[u8], state: &[u8], standing: &Nodes, n: usize) -> bool
    requires { (n < node_count plan.now) × StateFits plan.now state.now }
    ensures { result ≡ bad_byte_in plan.now standing.now state.now n }
{
    let x = state[8 + n];
    if x == Status::Waiting as u8 {
        return false;
    }
    if standing[n] != 1 {
        return true;
    }
    if is_kind(plan, n, Kind::Task) {
        return x > Status::Done as u8;
    }
    !(is_kind(plan, n, Kind::Optional) && x == Status::Done as u8)
}

// The byte of node n is bad, or it has an ordinal and has not been started.
#[tactic(auto, unfolding(crate::specs::Inner::bad_node_in))]
fn node_bad(plan: &[u8], state: &[u8], standing: &Nodes, n: usize) -> bool
    requires { (n < node_count plan.now) × StateFits plan.now state.now }
    ensures { result ≡ bad_node_in plan.now standing.now state.now n }
{
    byte_bad(plan, state, standing, n) || is_stray(plan, state, n)
}

fn nodes_bad(plan: &[u8], state: &[u8], standing: &Nodes) -> bool
    requires { StateFits plan.now state.now }
    ensures { result ≡ any_below (node_count plan.now)
        (bad_node_in plan.now standing.now state.now) }
{
    (0..nodes(plan)).any(|n| node_bad(plan, state, standing, n))
}

// Refuses plan, list or a state that is too short (1 to 14, 28, 29, 15), or leaves of the marks those of the nodes that
// stand.
fn check_room(
    plan: &[u8],
    blocked: &[usize],
    state: &[u8],
    standing: &mut Nodes,
) -> Result<(), Refusal>
    requires { AllMarked standing.old }
    ensures { StateChecked plan.now blocked.now
        (room_refusal_under plan.now blocked.now state.now) (returned result) standing.new }
{
    check_blocked(plan, blocked, standing)?;
    if state.len() < 8 + 3 * nodes(plan) {
        return Err(Refusal::NoRoom);
    }
    Ok(())
}

// Refuses plan, list or state (1 to 16, 28, 29), or leaves of the marks those of the nodes that stand.
pub fn check_state(
    plan: &[u8],
    blocked: &[usize],
    state: &[u8],
    standing: &mut Nodes,
) -> Result<(), Refusal>
    requires { AllMarked standing.old }
    ensures { StateChecked plan.now blocked.now
        (state_refusal_under plan.now blocked.now state.now) (returned result) standing.new }
{
    check_room(plan, blocked, state, standing)?;
    if flags_bad(plan, state) || nodes_bad(plan, state, standing) || ordinals_bad(plan, state) {
        return Err(Refusal::Malformed);
    }
    Ok(())
}

// A state in which every task waits and each flag is as its start bit says; refused, nothing changes.
pub fn fresh(plan: &[u8], blocked: &[usize], state: &mut [u8]) -> Result<(), Refusal>
    ensures { Freshened plan.now blocked.now state.old (returned result) state.new }
{
    let mut standing = all_nodes();
    check_room(plan, blocked, state, &mut standing)?;
    let n = 8 + 3 * nodes(plan);
    state[..8].copy_from_slice(&plan[8..16]);
    state[8..n].fill(0);
    Ok(())
}
