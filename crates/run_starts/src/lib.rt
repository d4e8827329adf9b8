// The order of starts: after the bytes of the nodes a state has a number for each node, the ordinal of its start (02:
// place).
#![tactic(auto)]

ghost use Rattle.std.specs.Prelude.{◌≡◌, ℕ, ◌<◌, length, get_or};
ghost use Rattle.plan_format.specs.Format.{node_count};
ghost use Rattle.plan_format.specs.Whole.{Whole};
ghost use Rattle.run_starts.specs.Starts.{ordinal_at, ordinal_in, started_in, started_count, stray_ordinal};
ghost use Rattle.run_starts.specs.Inner.{StateFits, with_ordinal};
ghost use Rattle.run_starts.specs.Starts.{holders, misnumbered};
ghost use Rattle.tables.specs.Sizes.{STARTS};

use base::kinds::Kind;
use base::statuses::Status;
use plan_format::fields::{is_kind, nodes, u16_at};
use tables::STARTS;

// Where the ordinal of node n stands.
#[tactic(auto, unfolding(crate::specs::Starts::ordinal_at))]
fn ordinal_at(plan: &[u8], n: usize) -> usize
    requires { (n < node_count plan.now) × Whole plan.now }
    ensures { result ≡ ordinal_at plan.now n }
{
    8 + nodes(plan) + 2 * n
}

#[tactic(auto, unfolding(crate::specs::Starts::ordinal_at, crate::specs::Starts::ordinal_in))]
fn ordinal(plan: &[u8], state: &[u8], n: usize) -> usize
    requires { (n < node_count plan.now) × StateFits plan.now state.now }
    ensures { result ≡ ordinal_in plan.now state.now n }
{
    usize::from(u16_at(state, ordinal_at(plan, n)))
}

// Node n is a started task.
#[tactic(auto, unfolding(crate::specs::Starts::started_in, crate::specs::Starts::node_byte))]
fn is_started(plan: &[u8], state: &[u8], n: usize) -> bool
    requires { (n < node_count plan.now) × StateFits plan.now state.now }
    ensures { result ≡ started_in plan.now state.now n }
{
    is_kind(plan, n, Kind::Task) && state[8 + n] != Status::Waiting as u8
}

// Node n has an ordinal and has not been started.
#[tactic(auto, unfolding(crate::specs::Starts::stray_ordinal))]
pub fn is_stray(plan: &[u8], state: &[u8], n: usize) -> bool
    requires { (n < node_count plan.now) × StateFits plan.now state.now }
    ensures { result ≡ stray_ordinal plan.now state.now n }
{
    !is_started(plan, state, n) && ordinal(plan, state, n) != 0
}

// How many tasks have been started.
pub fn started(plan: &[u8], state: &[u8]) -> usize
    requires { StateFits plan.now state.now }
    ensures { result ≡ started_count plan.now state.now }
{
    (0..nodes(plan))
        .filter(|n| is_started(plan, state, *n))
        .count()
}

// A count for each ordinal, from 0 to that of the last start.
type Counts = [u8; STARTS];

// How many started tasks have each ordinal.
fn holders(plan: &[u8], state: &[u8]) -> Counts
    requires { StateFits plan.now state.now }
    ensures { (length result ≡ STARTS) × ((k : ℕ) → k < STARTS
        → get_or result k 0 ≡ holders plan.now state.now k) }
{
    let mut table = [0; STARTS];
    for n in 0..nodes(plan) {
        let k = ordinal(plan, state, n);
        if is_started(plan, state, n) && k < STARTS {
            table[k] += 1;
        }
    }
    table
}

// The ordinals of the started tasks are not each of 1 to their number exactly once.
pub fn ordinals_bad(plan: &[u8], state: &[u8]) -> bool
    requires { StateFits plan.now state.now }
    ensures { result ≡ misnumbered plan.now state.now }
{
    let m = started(plan, state);
    let table = holders(plan, state);
    (0..m).any(|k| table[k + 1] != 1)
}

// Writes the ordinal k at node n.
#[tactic(auto, unfolding(crate::specs::Starts::ordinal_at))]
pub fn write_ordinal(plan: &[u8], state: &mut [u8], n: usize, k: usize)
    requires { (n < node_count plan.now) × ((k < 65536) × StateFits plan.now state.old) }
    ensures { state.new ≡ with_ordinal plan.now n k state.old }
{
    let at = ordinal_at(plan, n);
    state[at..at + 2].copy_from_slice(&(k as u16).to_le_bytes());
}
