// Which refusal applies to the start or the finish of a task, to the skip of an optional group, or to several finishes
// in one step, on a state that passes the checks up to 16.
#![tactic(auto)]

ghost use Rattle.std.specs.Prelude.{◌≡◌};
ghost use Rattle.runs.specs.Plan.{place_number};
ghost use Rattle.runs.specs.Execution as execution;
ghost use Rattle.runs.specs.Calls.{asks, together};
ghost use Rattle.runs.specs.Numbers.{status_byte};
ghost use Rattle.run_state.specs.Inner.{AtEvent, state_refusal};
ghost use Rattle.answers.specs.Refusals.{returned};
ghost use Rattle.run_progress.specs.Progress.{Counted};
ghost use Rattle.run_progress.specs.declared.Tally.TheVariants.{Begun};
ghost use Rattle.run_refusals.specs.Inner.{event_of, event_place, Refuses, RefusesEvent};
ghost use Rattle.node_sets.specs.Sets.{marked};
ghost use Rattle.run_refusals.specs.Parts.{tree_refusal, begin_refusal};

use answers::Refusal;
use base::kinds::Kind;
use base::statuses::Status;
use node_sets::{mark_all, mark_one};
use plan_codes::value::Place;
use plan_format::fields::is_kind;
use run_conditions::{inc_broken, unmet, with_literals};
use run_enabled::{branch_begun, order_open, path};
use run_flags::load;
use run_progress::{Tally, children, is_begun};
use run_tasks::{no_task, not_rising, not_running};
use tables::Nodes;

// How a call moves a task on.
#[derive(Clone, Copy)]
pub enum Move {
    Start,
    Finish,
}

// The place of the literals that a move makes true: inconditions, postconditions.
pub fn asserted_place(m: Move) -> u16
    ensures { result ≡ place_number (event_place (event_of m 0)) }
{
    match m {
        Move::Start => Place::Inc as u16,
        Move::Finish => Place::Post as u16,
    }
}

// The byte that a move asks of its task: waiting, running.
fn asked(m: Move) -> u8
    ensures { result ≡ status_byte (asks (event_of m 0)) }
{
    match m {
        Move::Start => Status::Waiting as u8,
        Move::Finish => Status::Running as u8,
    }
}

// Refusals 19 and 20; 19 also tells a node that does not stand.
fn tree_refused(
    plan: &[u8],
    state: &[u8],
    standing: &Nodes,
    begun: &Nodes,
    node: usize,
) -> Result<(), Refusal>
    requires at_event { AtEvent plan.now state.now node }
    requires counted { Counted Begun plan.now state.now begun.now }
    ensures { returned result ≡ tree_refusal plan.now state.now node
        (marked standing.now node) }
{
    if standing[node] != 1 || branch_begun(plan, state, begun, node) {
        return Err(Refusal::OtherBranch);
    }
    let ends = children(plan, state, Tally::Ends);
    let marks = path(plan, node);
    if order_open(plan, state, &ends, &marks) {
        return Err(Refusal::OrderOpen);
    }
    Ok(())
}

// Refusals 19 to 21 of a start.
fn start_refused(plan: &[u8], state: &[u8], standing: &Nodes, task: usize) -> Result<(), Refusal>
    requires { AtEvent plan.now state.now task }
    ensures { returned result ≡ begin_refusal plan.now state.now (execution.start task)
        (marked standing.now task) }
{
    let begun = children(plan, state, Tally::Begun);
    tree_refused(plan, state, standing, &begun, task)?;
    let own = mark_one(task);
    if unmet(plan, Place::Pre as u16, &own, load(state)) {
        Err(Refusal::Unmet)
    } else {
        Ok(())
    }
}

// Refusals 19 to 21, which are asked of a start only.
fn begin_refused(
    plan: &[u8],
    state: &[u8],
    standing: &Nodes,
    m: Move,
    task: usize,
) -> Result<(), Refusal>
    requires { AtEvent plan.now state.now task }
    ensures { returned result ≡ begin_refusal plan.now state.now (event_of m task)
        (marked standing.now task) }
{
    match m {
        Move::Start => start_refused(plan, state, standing, task),
        Move::Finish => Ok(()),
    }
}

// Refusals 17 to 22 of a move.
pub fn refused(
    plan: &[u8],
    state: &[u8],
    standing: &Nodes,
    m: Move,
    task: usize,
) -> Result<(), Refusal>
    requires { state_refusal plan.now state.now ≡ 0 }
    ensures { RefusesEvent plan.now state.now standing.now
        (event_of m task) (returned result) }
{
    if !is_kind(plan, task, Kind::Task) {
        return Err(Refusal::NoSuchNode);
    }
    if state[8 + task] != asked(m) {
        return Err(Refusal::WrongStatus);
    }
    begin_refused(plan, state, standing, m, task)?;
    let own = mark_one(task);
    if inc_broken(plan, state, asserted_place(m), &own) {
        return Err(Refusal::Broken);
    }
    Ok(())
}

// Refusals 27 and 18 to 20 of a skip.
pub fn skip_refused(
    plan: &[u8],
    state: &[u8],
    standing: &Nodes,
    group: usize,
) -> Result<(), Refusal>
    requires { state_refusal plan.now state.now ≡ 0 }
    ensures { RefusesEvent plan.now state.now standing.now
        (execution.skip group) (returned result) }
{
    if !is_kind(plan, group, Kind::Optional) {
        return Err(Refusal::NotOptional);
    }
    let begun = children(plan, state, Tally::Begun);
    if is_begun(plan, state, &begun, group) {
        Err(Refusal::WrongStatus)
    } else {
        tree_refused(plan, state, standing, &begun, group)
    }
}

// Refusals 25, 17, 18, 26 and 22 of several finishes in one step. What the tasks leave must all be true after it
// (26); of the others that run, none has a hold turned (22).
pub fn together_refused(plan: &[u8], state: &[u8], tasks: &[usize]) -> Result<(), Refusal>
    requires { state_refusal plan.now state.now ≡ 0 }
    ensures { Refuses plan.now state.now (together tasks.now) (returned result) }
{
    if not_rising(tasks) {
        return Err(Refusal::TasksFall);
    }
    if no_task(plan, tasks) {
        return Err(Refusal::NoSuchNode);
    }
    if not_running(state, tasks) {
        return Err(Refusal::WrongStatus);
    }
    let marks = mark_all(tasks);
    let next = with_literals(plan, Place::Post as u16, &marks, load(state));
    if unmet(plan, Place::Post as u16, &marks, next) {
        return Err(Refusal::Opposed);
    }
    if inc_broken(plan, state, Place::Post as u16, &marks) {
        return Err(Refusal::Broken);
    }
    Ok(())
}
