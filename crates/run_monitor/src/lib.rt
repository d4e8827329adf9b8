// The monitor (01: keeper): whether the root is complete, the start and the finish of a task, the skip of an optional
// group, the finishes of several tasks in one step.
#![tactic(auto)]

ghost use Rattle.runs.specs.Execution as execution;
ghost use Rattle.runs.specs.Calls.{one, together};
ghost use Rattle.answers.specs.Refusals.{returned};
ghost use Rattle.run_refusals.specs.Inner.{event_of};
ghost use Rattle.run_monitor.specs.Status.{Told};
ghost use Rattle.run_monitor.specs.Events.{Called};

use answers::Refusal;
use base::statuses::Status;
use node_sets::all_nodes;
use run_progress::{Tally, children, is_complete};
use run_refusals::{Move, refused, skip_refused, together_refused};
use run_state::check_state;
use run_step::{write_finishes, write_move};

#[derive(Clone, Copy, Debug, PartialEq, Eq)]
pub enum Progress {
    Complete,
    Unfinished,
}

// Refuses plan, list or state (1 to 16, 28, 29), or tells whether the root is complete.
pub fn status(plan: &[u8], blocked: &[usize], state: &[u8]) -> Result<Progress, Refusal>
    ensures { Told plan.now blocked.now state.now result }
{
    let mut standing = all_nodes();
    check_state(plan, blocked, state, &mut standing)?;
    let ends = children(plan, state, Tally::Ends);
    if is_complete(plan, state, &ends, 0) {
        Ok(Progress::Complete)
    } else {
        Ok(Progress::Unfinished)
    }
}

// The task moves on: what its move changes is written. Refused, nothing changes.
fn call(
    plan: &[u8],
    blocked: &[usize],
    state: &mut [u8],
    m: Move,
    task: usize,
) -> Result<(), Refusal>
    ensures { Called plan.now blocked.now state.old (one (event_of m task)) (returned result)
        state.new }
{
    let mut standing = all_nodes();
    check_state(plan, blocked, state, &mut standing)?;
    refused(plan, state, &standing, m, task)?;
    write_move(plan, state, m, task);
    Ok(())
}

// The task starts: its byte says running, its inconditions are made true and its start takes the next ordinal. Refused,
// nothing changes.
pub fn start(plan: &[u8], blocked: &[usize], state: &mut [u8], task: usize) -> Result<(), Refusal>
    ensures { Called plan.now blocked.now state.old
        (one (execution.start task)) (returned result) state.new }
{
    call(plan, blocked, state, Move::Start, task)
}

// The task finishes: its byte says done and its postconditions are made true. Refused, nothing changes.
pub fn finish(plan: &[u8], blocked: &[usize], state: &mut [u8], task: usize) -> Result<(), Refusal>
    ensures { Called plan.now blocked.now state.old
        (one (execution.finish task)) (returned result) state.new }
{
    call(plan, blocked, state, Move::Finish, task)
}

// The optional group is skipped: its byte says done, and no other byte changes. Refused, nothing changes.
pub fn skip(plan: &[u8], blocked: &[usize], state: &mut [u8], group: usize) -> Result<(), Refusal>
    ensures { Called plan.now blocked.now state.old
        (one (execution.skip group)) (returned result) state.new }
{
    let mut standing = all_nodes();
    check_state(plan, blocked, state, &mut standing)?;
    skip_refused(plan, state, &standing, group)?;
    state[8 + group] = Status::Done as u8;
    Ok(())
}

// The tasks finish in one step: their bytes say done and their postconditions are made true. Refused, nothing changes.
pub fn finish_together(
    plan: &[u8],
    blocked: &[usize],
    state: &mut [u8],
    tasks: &[usize],
) -> Result<(), Refusal>
    ensures { Called plan.now blocked.now state.old
        (together tasks.now) (returned result) state.new }
{
    let mut standing = all_nodes();
    check_state(plan, blocked, state, &mut standing)?;
    together_refused(plan, state, tasks)?;
    write_finishes(plan, state, tasks);
    Ok(())
}
