// The list of members (02: who is aboard), a byte for each node: whether it is refused (15, 16), and which nodes stand.
#![tactic(auto)]

ghost use Rattle.std.specs.Prelude.{◌≡◌, ◌≤◌, ◌<◌, length};
ghost use Rattle.answers.specs.Refusals.{returned};
ghost use Rattle.plan_format.specs.Format.{node_count};
ghost use Rattle.plan_rules.specs.Rules.{refusal};
ghost use Rattle.plan_check.specs.Meaning.{plan_of};
ghost use Rattle.plan_blocked.specs.Inner.{Standing};
ghost use Rattle.runs.specs.Searches.{any_below};
ghost use Rattle.runs.specs.Model.Trees.{child_b};
ghost use Rattle.members.specs.Model.{outsider};
ghost use Rattle.member_list.specs.Members.{member_in};
ghost use Rattle.member_list.specs.Model.{bad_member, members_refusal};

use answers::Refusal;
use plan_check::check;
use plan_format::fields::{nodes, parent};
use tables::{NODES, Nodes};

// The node is a child of the root.
pub fn root_child(plan: &[u8], i: usize) -> bool
    requires { (refusal plan.now ≡ 0) × (i < node_count plan.now) }
    ensures { result ≡ child_b (plan_of plan.now) 0 i }
{
    i != 0 && parent(plan, i) == 0
}

// A byte over 1, or a 1 at a node that is no child of the root.
fn byte_bad(plan: &[u8], members: &[u8], i: usize) -> bool
    requires { (refusal plan.now ≡ 0) × (i < node_count plan.now)
        × (node_count plan.now ≤ length members.now) }
    ensures { result ≡ bad_member plan.now members.now i }
{
    let byte = members[i];
    byte > 1 || (byte == 1 && !root_child(plan, i))
}

// 16: some byte of the first N is wrong.
fn list_bad(plan: &[u8], members: &[u8]) -> bool
    requires { (refusal plan.now ≡ 0) × (node_count plan.now ≤ length members.now) }
    ensures { result ≡ any_below (node_count plan.now)
        (bad_member plan.now members.now) }
{
    (0..nodes(plan)).any(|i| byte_bad(plan, members, i))
}

// Refuses a plan, 1 to 14, or its list of members, 15 and 16.
pub fn check_members(plan: &[u8], members: &[u8]) -> Result<(), Refusal>
    ensures { returned result ≡ members_refusal plan.now members.now }
{
    check(plan)?;
    if members.len() < nodes(plan) {
        return Err(Refusal::NoRoom);
    }
    if list_bad(plan, members) {
        return Err(Refusal::Malformed);
    }
    Ok(())
}

// Marks the nodes that stand: the root, its members, and below these each node whose parent stands.
pub fn mark_members(plan: &[u8], members: &[u8]) -> Nodes
    requires { (refusal plan.now ≡ 0) × (node_count plan.now ≤ length members.now) }
    ensures { Standing plan.now
        (outsider (plan_of plan.now) (member_in plan.now members.now)) result }
{
    let mut standing = [0; NODES];
    standing[0] = 1;
    for c in 1..nodes(plan) {
        let g = usize::from(parent(plan, c));
        standing[c] = if g == 0 { members[c] } else { standing[g] };
    }
    standing
}
