// Blocked nodes (02: struck): whether a list of them is accepted (28, 29), and which nodes stand.
#![tactic(auto)]

ghost use Rattle.std.specs.Prelude.{◌≡◌, false, ◌<◌};
ghost use Rattle.plan_format.specs.Format.{node_count};
ghost use Rattle.plan_rules.specs.Rules.{refusal};
ghost use Rattle.plan_check.specs.Meaning.{plan_of};
ghost use Rattle.runs.specs.Searches.{any_in};
ghost use Rattle.runs.specs.Model.Blocked.{unblockable_b, refused28_b};
ghost use Rattle.answers.specs.Refusals.{returned};
ghost use Rattle.node_sets.specs.Sets.{marked, AllMarked, Each};
ghost use Rattle.plan_blocked.specs.Inner.{Standing, ListChecked};
ghost use Rattle.plan_blocked.specs.Branches.{WithBranch, emptied_at};

use answers::Refusal;
use base::kinds::Kind;
use node_sets::{mark_all, rises};
use plan_check::check;
use plan_format::fields::{is_kind, nodes, parent};
use tables::{NODES, Nodes};

// The number is that of the root, of no node, or of one whose parent is neither any-of nor optional.
fn unblockable(plan: &[u8], s: usize) -> bool
    requires { refusal plan.now ≡ 0 }
    ensures { result ≡ unblockable_b (plan_of plan.now) s }
{
    if s == 0 {
        return true;
    }
    if nodes(plan) <= s {
        return true;
    }
    let g = usize::from(parent(plan, s));
    !(is_kind(plan, g, Kind::AnyOf) | is_kind(plan, g, Kind::Optional))
}

// 28: the list does not strictly rise, or some number of it cannot be blocked. The list is read up to the first, so of
// a rising one no more than 128 numbers.
fn list_bad(plan: &[u8], list: &[usize]) -> bool
    requires { refusal plan.now ≡ 0 }
    ensures { result ≡ refused28_b (plan_of plan.now) list.now }
{
    !rises(list) || list.iter().any(|s| unblockable(plan, *s))
}

// Leaves the marks of the nodes that stand: a child does if it is not blocked and its parent stands. Hands over those
// of the groups that have a child that stands.
fn mark_standing(plan: &[u8], blocked: &Nodes, standing: &mut Nodes) -> Nodes
    requires { (refusal plan.now ≡ 0) × ((marked blocked.now 0 ≡ false) × AllMarked standing.old) }
    ensures { Standing plan.now (marked blocked.now) standing.new
        × WithBranch plan.now (marked blocked.now) result }
{
    let mut marks = [0; NODES];
    for c in 1..nodes(plan) {
        let g = usize::from(parent(plan, c));
        if (blocked[c] == 1) | (standing[g] != 1) {
            standing[c] = 0;
        } else {
            marks[g] = 1;
        }
    }
    marks
}

// The parent of node s is an any-of group that stands and has no branch left.
fn emptied(plan: &[u8], standing: &Nodes, marks: &Nodes, s: usize) -> bool
    requires { (refusal plan.now ≡ 0) × ((0 < s) × (s < node_count plan.now)) }
    ensures { result ≡ emptied_at plan.now standing.now marks.now s }
{
    let g = usize::from(parent(plan, s));
    (standing[g] == 1) & is_kind(plan, g, Kind::AnyOf) & (marks[g] != 1)
}

// 29: some group has lost all its branches. Only the parents of blocked nodes need be asked.
fn branchless(plan: &[u8], list: &[usize], standing: &Nodes, marks: &Nodes) -> bool
    requires { (refusal plan.now ≡ 0) × Each list.now (λ s. (0 < s) × (s < node_count plan.now)) }
    ensures { result ≡ any_in list.now
        (emptied_at plan.now standing.now marks.now) }
{
    list.iter().any(|s| emptied(plan, standing, marks, *s))
}

// Refuses a list (28, 29), or leaves of the marks those of the nodes that stand. With nothing blocked all do.
fn check_list(plan: &[u8], list: &[usize], standing: &mut Nodes) -> Result<(), Refusal>
    requires { (refusal plan.now ≡ 0) × AllMarked standing.old }
    ensures { ListChecked plan.now list.now (returned result) standing.new }
{
    if list.is_empty() {
        return Ok(());
    }
    if list_bad(plan, list) {
        return Err(Refusal::BadBlocked);
    }
    let blocked = mark_all(list);
    let marks = mark_standing(plan, &blocked, standing);
    if branchless(plan, list, standing, &marks) {
        return Err(Refusal::NoBranch);
    }
    Ok(())
}

// Refuses plan or list (1 to 14, 28, 29), or leaves of the marks those of the nodes that stand. The table is lent: one
// that is handed over takes its bytes of the stack anew in each layer of the calls.
pub fn check_blocked(plan: &[u8], list: &[usize], standing: &mut Nodes) -> Result<(), Refusal>
    requires { AllMarked standing.old }
    ensures { ListChecked plan.now list.now (returned result) standing.new }
{
    check(plan)?;
    check_list(plan, list, standing)
}
