// What writes a step into a state that has passed its checks: the start or finish of a task, the finishes of several.
#![tactic(auto)]

ghost use Rattle.std.specs.Prelude.{◌≡◌};
ghost use Rattle.runs.specs.Calls.{finishes};
ghost use Rattle.run_state.specs.Inner.{AtEvent};
ghost use Rattle.run_refusals.specs.Inner.{event_of};
ghost use Rattle.run_step.specs.Steps.{with_event, after_event, after_all};
ghost use Rattle.run_step.specs.Inner.{Finishing};

use base::statuses::Status;
use node_sets::{mark_all, mark_one};
use plan_codes::value::Place;
use run_conditions::with_literals;
use run_flags::{load, store};
use run_refusals::{Move, asserted_place};
use run_starts::{started, write_ordinal};

// Writes the literals of the task at the place, and its byte.
pub fn write_event(plan: &[u8], state: &mut [u8], place: u16, task: usize, byte: u8)
    requires { AtEvent plan.now state.old task }
    ensures { state.new ≡ with_event plan.now place task byte state.old }
{
    let own = mark_one(task);
    let next = with_literals(plan, place, &own, load(state));
    store(state, next);
    state[8 + task] = byte;
}

// Writes all that a move changes: the literals, the byte, and the ordinal of a start.
pub fn write_move(plan: &[u8], state: &mut [u8], m: Move, task: usize)
    requires { AtEvent plan.now state.old task }
    ensures { state.new ≡ after_event plan.now state.old (event_of m task) }
{
    match m {
        Move::Start => {
            let k = started(plan, state) + 1;
            write_event(plan, state, asserted_place(m), task, Status::Running as u8);
            write_ordinal(plan, state, task, k);
        }
        Move::Finish => write_event(plan, state, asserted_place(m), task, Status::Done as u8),
    }
}

// Writes the postconditions of the tasks, and their bytes.
pub fn write_finishes(plan: &[u8], state: &mut [u8], tasks: &[usize])
    requires { Finishing plan.now state.old tasks.now }
    ensures { state.new ≡ after_all plan.now state.old
        (finishes tasks.now) }
{
    let marks = mark_all(tasks);
    let next = with_literals(plan, Place::Post as u16, &marks, load(state));
    store(state, next);
    for t in tasks {
        state[8 + *t] = Status::Done as u8;
    }
}
