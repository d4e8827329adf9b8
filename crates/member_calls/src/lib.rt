// Members of an all_of root come and go (02: aboard, off): each call answers with the verdict for those that are
// members after it.
#![tactic(auto)]

ghost use Rattle.std.specs.Prelude.{◌≡◌, ◌≤◌, length};
ghost use Rattle.answers.specs.Refusals.{returned};
ghost use Rattle.plan_format.specs.Format.{node_count};
ghost use Rattle.plan_rules.specs.Rules.{refusal};
ghost use Rattle.plan_check.specs.Meaning.{plan_of};
ghost use Rattle.runs.specs.Plan.{all_of};
ghost use Rattle.verdict.specs.Verdict.{said};
ghost use Rattle.members.specs.Members.{include, exclude};
ghost use Rattle.member_calls.specs.Calls.{MemberCalled};
ghost use Rattle.member_calls.specs.Model.{member_call_refusal};
ghost use Rattle.member_calls.specs.Inner.{member_call, OfList};

use answers::Refusal;
use base::kinds::Kind;
use member_list::{check_members, mark_members, root_child};
use plan_format::fields::{is_kind, nodes};
use table_marks::marks_among;
use verdict::{Verdict, of_words, start_word};

// Refuses a call after which the node is to be a member or not: 1 to 16, 17, 31 and 32.
fn check_call(plan: &[u8], members: &[u8], node: usize, joins: bool) -> Result<(), Refusal>
    ensures { returned result ≡ member_call_refusal plan.now members.now (member_call node joins) }
{
    check_members(plan, members)?;
    if node >= nodes(plan) {
        return Err(Refusal::NoSuchNode);
    }
    if !(is_kind(plan, 0, Kind::AllOf) && root_child(plan, node)) {
        return Err(Refusal::NoMember);
    }
    if (members[node] == 1) == joins {
        return Err(Refusal::SameMembers);
    }
    Ok(())
}

// The verdict for the members of a list.
fn judge(plan: &[u8], members: &[u8]) -> Verdict
    requires { (refusal plan.now ≡ 0) × (node_count plan.now ≤ length members.now)
        × ((plan_of plan.now).tree.kind 0 ≡ all_of) }
    ensures { OfList plan.now members.now result }
{
    let standing = mark_members(plan, members);
    let words = marks_among(plan, &standing, 0);
    let start = start_word(plan);
    of_words(&words, start)
}

// Writes the byte of the node if nothing is refused, and answers for the members after it.
fn change(plan: &[u8], members: &mut [u8], node: usize, joins: bool) -> Result<Verdict, Refusal>
    ensures { MemberCalled plan.now members.old (member_call node joins) (said result)
        members.new }
{
    check_call(plan, members, node, joins)?;
    members[node] = u8::from(joins);
    Ok(judge(plan, members))
}

// Makes the child a member and writes 1 at its byte: the verdict for the members after it, or a refusal, 1 to 17, 31 or
// 32.
pub fn include(plan: &[u8], members: &mut [u8], node: usize) -> Result<Verdict, Refusal>
    ensures { MemberCalled plan.now members.old (include node) (said result)
        members.new }
{
    change(plan, members, node, true)
}

// The same with the child no member, and 0.
pub fn exclude(plan: &[u8], members: &mut [u8], node: usize) -> Result<Verdict, Refusal>
    ensures { MemberCalled plan.now members.old (exclude node) (said result)
        members.new }
{
    change(plan, members, node, false)
}
