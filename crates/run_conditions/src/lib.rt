// The conditions of the tasks of an event, or of several finishes in one step: the literals that they make true, unmet
// ones, and inconditions of other running tasks that they break. The tasks are those marked by a 1 in a table.
#![tactic(auto)]

ghost use Rattle.std.specs.Prelude.{◌≡◌, not, true, false, ◌+◌, ◌<◌, replicate, eqb};
ghost use Rattle.plan_codes.specs.Values.{flag_of, place_of};
ghost use Rattle.plan_format.specs.Format.{cond_count, cond_value};
ghost use Rattle.run_flags.specs.Inner.{all_byte};
ghost use Rattle.plan_rules.specs.Rules.{refusal};
ghost use Rattle.runs.specs.Tests.{same_b};
ghost use Rattle.runs.specs.Searches.{any_below};
ghost use Rattle.run_state.specs.Inner.{state_refusal};
ghost use Rattle.run_state.specs.Made.{is_of, set_at, made};
ghost use Rattle.node_sets.specs.Sets.{marked};
ghost use Rattle.run_conditions.specs.Conditions.{unmet_at, broken_at};

use base::statuses::Status;
use plan_codes::value::{Place, flag_of, place_of, sign_of};
use plan_format::fields::{condition_node, condition_value, conditions};
use run_flags::Flags;
use tables::Nodes;

// Condition i is at the place (0 pre-, 1 in-, 2 postcondition).
fn is_at(plan: &[u8], place: u16, i: usize) -> bool
    requires { (i < cond_count plan.now) × (refusal plan.now ≡ 0) }
    ensures { result ≡ eqb (place_of (cond_value plan.now i)) place }
{
    place_of(condition_value(plan, i)) == place
}

// Condition i is of a marked task, at the place.
fn is_of(plan: &[u8], place: u16, tasks: &Nodes, i: usize) -> bool
    requires { (i < cond_count plan.now) × (refusal plan.now ≡ 0) }
    ensures { result ≡ is_of plan.now place (marked tasks.now) i }
{
    let node = usize::from(condition_node(plan, i));
    tasks[node] == 1 && is_at(plan, place, i)
}

// The flag of condition i.
fn flag_at(plan: &[u8], i: usize) -> usize
    requires { (i < cond_count plan.now) × (refusal plan.now ≡ 0) }
    ensures { (result ≡ flag_of (cond_value plan.now i)) × (result < 64) }
{
    usize::from(flag_of(condition_value(plan, i)))
}

// Condition i has the sign "set".
fn set_at(plan: &[u8], i: usize) -> bool
    requires { (i < cond_count plan.now) × (refusal plan.now ≡ 0) }
    ensures { result ≡ set_at plan.now i }
{
    sign_of(condition_value(plan, i)) == 1
}

// The flags with the literals of the marked tasks at the place made true: inconditions at a start, postconditions at
// finishes.
pub fn with_literals(plan: &[u8], place: u16, tasks: &Nodes, flags: Flags) -> Flags
    requires { refusal plan.now ≡ 0 }
    ensures { result.bytes ≡ made plan.now place (marked tasks.now) flags.bytes }
{
    let mut next = flags;
    for i in (0..conditions(plan)).rev() {
        if is_of(plan, place, tasks, i) {
            next = next.with(flag_at(plan, i), set_at(plan, i));
        }
    }
    next
}

fn differs(sign: bool, value: bool) -> bool
    ensures { result ≡ not (same_b sign value) }
{
    sign != value
}

// Condition i is of a marked task, at the place, and the flags do not meet it.
fn unmet_at(plan: &[u8], place: u16, tasks: &Nodes, flags: Flags, i: usize) -> bool
    requires { (i < cond_count plan.now) × (refusal plan.now ≡ 0) }
    ensures { result ≡ unmet_at plan.now place (marked tasks.now) flags.bytes i }
{
    is_of(plan, place, tasks, i) && differs(set_at(plan, i), flags.has(flag_at(plan, i)))
}

// The flags do not meet some condition of a marked task at the place: 21 for the preconditions before a start, 26 for
// the postconditions after several finishes.
pub fn unmet(plan: &[u8], place: u16, tasks: &Nodes, flags: Flags) -> bool
    requires { refusal plan.now ≡ 0 }
    ensures { result ≡ any_below (cond_count plan.now)
        (unmet_at plan.now place (marked tasks.now) flags.bytes) }
{
    (0..conditions(plan)).any(|i| unmet_at(plan, place, tasks, flags, i))
}

// What an event makes of flags that are all clear, and of flags that are all set.
#[derive(Clone, Copy)]
struct Images {
    clear: Flags,
    set: Flags,
}

// Condition i is an incondition of a running task that is not marked, and the event turns its flag.
fn broken_at(plan: &[u8], state: &[u8], after: Images, tasks: &Nodes, i: usize) -> bool
    requires { (i < cond_count plan.now) × (state_refusal plan.now state.now ≡ 0) }
    ensures { result ≡ broken_at plan.now state.now after.clear.bytes after.set.bytes
        (marked tasks.now) i }
{
    let node = usize::from(condition_node(plan, i));
    let f = flag_at(plan, i);
    let sign = set_at(plan, i);
    let kept = if sign {
        after.set.has(f)
    } else {
        after.clear.has(f)
    };
    is_at(plan, Place::Inc as u16, i)
        & (tasks[node] != 1)
        & (state[8 + node] == Status::Running as u8)
        & differs(sign, kept)
}

// 22: making the literals of the marked tasks at the place true breaks an incondition of another running task.
pub fn inc_broken(plan: &[u8], state: &[u8], place: u16, tasks: &Nodes) -> bool
    requires { state_refusal plan.now state.now ≡ 0 }
    ensures { result ≡ any_below (cond_count plan.now)
        (broken_at plan.now state.now
        (made plan.now place (marked tasks.now) (replicate 8 (all_byte false)))
        (made plan.now place (marked tasks.now) (replicate 8 (all_byte true)))
        (marked tasks.now)) }
{
    let clear = with_literals(plan, place, tasks, Flags::all(false));
    let set = with_literals(plan, place, tasks, Flags::all(true));
    let after = Images { clear, set };
    (0..conditions(plan)).any(|i| broken_at(plan, state, after, tasks, i))
}
