// What is asked of a list of tasks that finish in one step (25, 17, 18).
#![tactic(auto)]

ghost use Rattle.std.specs.Prelude.{◌≡◌, not, ◌+◌, ◌<◌, length, eqb};
ghost use Rattle.plan_format.specs.Format.{is_kind};
ghost use Rattle.plan_format.specs.Whole.{Whole};
ghost use Rattle.runs.specs.Searches.{any_in};
ghost use Rattle.runs.specs.Model.Monitor.{not_rising_b};
ghost use Rattle.run_starts.specs.Starts.{node_byte};
ghost use Rattle.node_sets.specs.Sets.{Each};
ghost use Rattle.tables.specs.Sizes.{NODES};

use base::kinds::Kind;
use base::statuses::Status;
use node_sets::rises;
use plan_format::fields::is_kind;

// 25: the list is empty or does not strictly rise.
#[tactic(auto, using(crate::proofs::Rising::not_rising_is))]
pub fn not_rising(tasks: &[usize]) -> bool
    ensures { result ≡ not_rising_b tasks.now }
{
    tasks.is_empty() || !rises(tasks)
}

// 17: some number is not that of a task. The list is read up to the first such number, so of a rising one no more than
// 129 numbers.
pub fn no_task(plan: &[u8], tasks: &[usize]) -> bool
    requires { Whole plan.now }
    ensures { result ≡ any_in tasks.now (λ t. not (is_kind plan.now t 0)) }
{
    tasks.iter().any(|t| !is_kind(plan, *t, Kind::Task))
}

// 18: some task is not running.
pub fn not_running(state: &[u8], tasks: &[usize]) -> bool
    requires { Each tasks.now (λ t. (t < NODES) × (8 + t < length state.now)) }
    ensures { result ≡ any_in tasks.now (λ t. not (eqb (node_byte state.now t) 1)) }
{
    tasks.iter().any(|t| state[8 + *t] != Status::Running as u8)
}
