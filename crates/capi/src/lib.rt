// The C interface: knowetop.h.
#![tactic(auto)]

ghost use Rattle.std.specs.Prelude.{◌≡◌};
ghost use Rattle.plan_rules.specs.Rules.{refusal};
ghost use Rattle.summary.specs.Summary.{Summarised};
ghost use Rattle.runs.specs.Execution as execution;
ghost use Rattle.runs.specs.Calls.{one, together};
ghost use Rattle.run_state.specs.Fresh.{Freshened};
ghost use Rattle.run_monitor.specs.Events.{Called};
ghost use Rattle.members.specs.Members.{include, exclude};
ghost use Rattle.capi.specs.Told.{VerdictNumber, StatusNumber, ListingNumber, SequenceNumber, MemberNumber};
ghost use Rattle.capi.specs.Told.{GeneratedNumber, MergedNumber};

use capi_numbers::{
    refusal_number, sequence_number, status_number, verdict_number, written_number,
};

#[unsafe(no_mangle)]
pub extern "C" fn knowetop_refusal(plan: &[u8]) -> u32
    ensures { result ≡ refusal plan.now }
{
    refusal_number(plan_check::check(plan))
}

#[unsafe(no_mangle)]
pub extern "C" fn knowetop_verdict(plan: &[u8], blocked: &[usize]) -> u32
    ensures { VerdictNumber plan.now blocked.now result }
{
    verdict_number(verdict::assess(plan, blocked))
}

#[unsafe(no_mangle)]
pub extern "C" fn knowetop_summary(
    plan: &[u8],
    blocked: &[usize],
    node: usize,
    out: &mut [u8],
) -> u32
    ensures { Summarised plan.now blocked.now node out.old result
        out.new }
{
    refusal_number(summary::summary(plan, blocked, node, out))
}

#[unsafe(no_mangle)]
pub extern "C" fn knowetop_fresh(plan: &[u8], blocked: &[usize], state: &mut [u8]) -> u32
    ensures { Freshened plan.now blocked.now state.old result
        state.new }
{
    refusal_number(run_state::fresh(plan, blocked, state))
}

#[unsafe(no_mangle)]
pub extern "C" fn knowetop_start(
    plan: &[u8],
    blocked: &[usize],
    state: &mut [u8],
    task: usize,
) -> u32
    ensures { Called plan.now blocked.now state.old
        (one (execution.start task)) result state.new }
{
    refusal_number(run_monitor::start(plan, blocked, state, task))
}

#[unsafe(no_mangle)]
pub extern "C" fn knowetop_finish(
    plan: &[u8],
    blocked: &[usize],
    state: &mut [u8],
    task: usize,
) -> u32
    ensures { Called plan.now blocked.now state.old
        (one (execution.finish task)) result state.new }
{
    refusal_number(run_monitor::finish(plan, blocked, state, task))
}

#[unsafe(no_mangle)]
pub extern "C" fn knowetop_finish_together(
    plan: &[u8],
    blocked: &[usize],
    state: &mut [u8],
    tasks: &[usize],
) -> u32
    ensures { Called plan.now blocked.now state.old
        (together tasks.now) result state.new }
{
    refusal_number(run_monitor::finish_together(plan, blocked, state, tasks))
}

#[unsafe(no_mangle)]
pub extern "C" fn knowetop_skip(
    plan: &[u8],
    blocked: &[usize],
    state: &mut [u8],
    group: usize,
) -> u32
    ensures { Called plan.now blocked.now state.old
        (one (execution.skip group)) result state.new }
{
    refusal_number(run_monitor::skip(plan, blocked, state, group))
}

#[unsafe(no_mangle)]
pub extern "C" fn knowetop_status(plan: &[u8], blocked: &[usize], state: &[u8]) -> u32
    ensures { StatusNumber plan.now blocked.now state.now result }
{
    status_number(run_monitor::status(plan, blocked, state))
}

#[unsafe(no_mangle)]
pub extern "C" fn knowetop_listing(plan: &[u8], out: &mut [u8]) -> u32
    ensures { ListingNumber plan.now out.old result out.new }
{
    written_number(listing::listing(plan, out))
}

#[unsafe(no_mangle)]
pub extern "C" fn knowetop_sequence(plan: &[u8]) -> u64
    ensures { SequenceNumber plan.now result }
{
    sequence_number(sequence::sequence(plan))
}

#[unsafe(no_mangle)]
pub extern "C" fn knowetop_include(plan: &[u8], members: &mut [u8], node: usize) -> u32
    ensures { MemberNumber plan.now members.old (include node) result members.new }
{
    verdict_number(member_calls::include(plan, members, node))
}

#[unsafe(no_mangle)]
pub extern "C" fn knowetop_exclude(plan: &[u8], members: &mut [u8], node: usize) -> u32
    ensures { MemberNumber plan.now members.old (exclude node) result members.new }
{
    verdict_number(member_calls::exclude(plan, members, node))
}

#[unsafe(no_mangle)]
pub extern "C" fn knowetop_generate(seed: u32, groups: usize, tasks: usize, out: &mut [u8]) -> u32
    ensures { GeneratedNumber (record { seed = seed; groups = groups; tasks = tasks }) out.old result
        out.new }
{
    written_number(plan_generate::generate(seed, groups, tasks, out))
}

#[unsafe(no_mangle)]
pub extern "C" fn knowetop_merge(first: &[u8], second: &[u8], out: &mut [u8]) -> u32
    ensures { MergedNumber first.now second.now out.old result out.new }
{
    written_number(plan_merge::merge(first, second, out))
}
