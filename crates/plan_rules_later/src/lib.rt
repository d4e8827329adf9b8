// The rules that compare a place with later ones: one pass backwards over the nodes or the conditions, with a table.
#![tactic(auto)]

ghost use Rattle.std.specs.Prelude.{◌≡◌, false, ℕ, ◌<◌, get_or, eqb};
ghost use Rattle.plan_format.specs.Format.{node_count, cond_count};
ghost use Rattle.plan_format.specs.Whole.{Whole};
ghost use Rattle.plan_rules.specs.Rules.{cause7, cause8, cause9, cause10, cause11, cause12};
ghost use Rattle.plan_rules_later.specs.Passes.{child_step, sign_step, post_step, asked, refused_by, Finds};

use plan_codes::value::{Place, flag_of, place_of, sign_of};
use plan_format::fields::{condition_node, condition_value, conditions, is_group, nodes, parent};

// What a place asks of an entry of the table: that it is the place's mark, or that it is not.
#[derive(Clone, Copy)]
enum Ask {
    Needs(u8),
    Bars(u8),
}

// What a place does: it may ask an entry; then it may write its mark to one.
#[derive(Clone, Copy)]
struct Step {
    asks: Option<Ask>,
    writes: Option<u8>,
    mark: u8,
}

// A group needs that a later node has marked it; every node marks its parent.
fn child_step(plan: &[u8], n: usize) -> Step
    requires { (n < node_count plan.now) × Whole plan.now }
    ensures { result ≡ child_step plan.now n }
{
    Step {
        asks: is_group(plan, n).then_some(Ask::Needs(n as u8)),
        writes: Some(parent(plan, n)),
        mark: 1,
    }
}

// A condition with sign clear bars that one with sign set has marked its place and flag with its task.
fn sign_step(plan: &[u8], i: usize) -> Step
    requires { (i < cond_count plan.now) × (Whole plan.now × (cause9 plan.now ≡ false)) }
    ensures { result ≡ sign_step plan.now i }
{
    let v = condition_value(plan, i);
    let sign = sign_of(v);
    let slot = (64 * place_of(v) + flag_of(v)) as u8;
    Step {
        asks: (sign == 0).then_some(Ask::Bars(slot)),
        writes: (sign == 1).then_some(slot),
        mark: condition_node(plan, i) + 1,
    }
}

// An incondition needs that a postcondition has marked its flag with its task.
fn post_step(plan: &[u8], i: usize) -> Step
    requires { (i < cond_count plan.now) × (Whole plan.now × (cause9 plan.now ≡ false)) }
    ensures { result ≡ post_step plan.now i }
{
    let v = condition_value(plan, i);
    let place = place_of(v);
    let flag = flag_of(v) as u8;
    Step {
        asks: (place == Place::Inc as u16).then_some(Ask::Needs(flag)),
        writes: (place == Place::Post as u16).then_some(flag),
        mark: condition_node(plan, i) + 1,
    }
}

// The entry that the place asks is not as it asks.
fn refused(step: Step, table: &[u8; 256]) -> bool
    ensures { result ≡ refused_by step.asks (eqb (get_or table.now (asked step.asks) 0) step.mark) }
{
    match step.asks {
        Some(Ask::Needs(k)) => table[usize::from(k)] != step.mark,
        Some(Ask::Bars(k)) => table[usize::from(k)] == step.mark,
        None => false,
    }
}

// Some place asks what the places after it have not made so.
fn refuses<F: Fn(usize) -> Step>(n: usize, step: F) -> bool
    requires { (i : ℕ) → i < n → F.pre step i }
    ensures { Finds (F.post step) n result }
{
    let mut table = [0u8; 256];
    for i in (0..n).rev() {
        let s = step(i);
        if refused(s, &table) {
            return true;
        }
        if let Some(k) = s.writes {
            table[usize::from(k)] = s.mark;
        }
    }
    false
}

// A group has no child.
pub fn childless(plan: &[u8]) -> bool
    requires { Whole plan.now × (cause7 plan.now ≡ false) }
    ensures { result ≡ cause8 plan.now }
{
    refuses(nodes(plan), |n| child_step(plan, n))
}

// A task has conditions of both signs on one flag, at one place.
pub fn both_signs(plan: &[u8]) -> bool
    requires { Whole plan.now × ((cause9 plan.now ≡ false) × (cause10 plan.now ≡ false)) }
    ensures { result ≡ cause11 plan.now }
{
    refuses(conditions(plan), |i| sign_step(plan, i))
}

// An incondition's task has no postcondition on its flag.
pub fn no_postcondition(plan: &[u8]) -> bool
    requires { Whole plan.now × ((cause9 plan.now ≡ false) × (cause10 plan.now ≡ false)) }
    ensures { result ≡ cause12 plan.now }
{
    refuses(conditions(plan), |i| post_step(plan, i))
}
