// Rules 1 to 14: whether a plan (01: book) is accepted.
#![tactic(auto)]

ghost use Rattle.std.specs.Prelude.{◌≡◌, ◌≤◌, length};
ghost use Rattle.answers.specs.Refusals.{returned};
ghost use Rattle.plan_format.specs.Format.{whole_length};
ghost use Rattle.plan_format.specs.Whole.{Limits, Whole};
ghost use Rattle.plan_rules.specs.Rules.{refusal, cause2};
ghost use Rattle.plan_check.specs.Parts.{from_nodes, from_conditions, from_orders};

use answers::Refusal;
use plan_format::fields::{conditions, flags, nodes, orders};
use plan_rules_each::{
    some_bad_char, some_bad_condition, some_bad_entry, some_bad_order, some_bad_parent,
    some_bad_start, some_conditions_fall, some_orders_fall,
};
use plan_rules_later::{both_signs, childless, no_postcondition};

fn sizes_bad(plan: &[u8]) -> bool
    requires { 16 ≤ length plan.now }
    ensures { result ≡ cause2 plan.now }
{
    let n = nodes(plan);
    let c = conditions(plan);
    let k = orders(plan);
    let v = flags(plan);
    ((n < 1) | (128 < n)) | ((1024 < c) | (512 < k)) | ((v < 1) | (64 < v))
}

fn whole_length(plan: &[u8]) -> usize
    requires { Limits plan.now }
    ensures { result ≡ whole_length plan.now }
{
    16 + 8 * nodes(plan) + 3 * conditions(plan) + 2 * orders(plan)
}

#[tactic(auto, unfolding(crate::specs::Parts::from_orders))]
fn check_orders(plan: &[u8]) -> Result<(), Refusal>
    requires { Whole plan.now }
    ensures { returned result ≡ from_orders plan.now }
{
    if some_bad_order(plan) {
        return Err(Refusal::BadOrder);
    }
    if some_orders_fall(plan) {
        return Err(Refusal::OrdersFall);
    }
    Ok(())
}

#[tactic(auto, unfolding(crate::specs::Parts::from_conditions))]
fn check_conditions(plan: &[u8]) -> Result<(), Refusal>
    requires { Whole plan.now }
    ensures { returned result ≡ from_conditions plan.now }
{
    if some_bad_condition(plan) {
        return Err(Refusal::BadCondition);
    }
    if some_conditions_fall(plan) {
        return Err(Refusal::ConditionsFall);
    }
    if both_signs(plan) {
        return Err(Refusal::BothSigns);
    }
    if no_postcondition(plan) {
        return Err(Refusal::NoPostcondition);
    }
    check_orders(plan)
}

#[tactic(auto, unfolding(crate::specs::Parts::from_nodes))]
fn check_nodes(plan: &[u8]) -> Result<(), Refusal>
    requires { Whole plan.now }
    ensures { returned result ≡ from_nodes plan.now }
{
    if some_bad_start(plan) {
        return Err(Refusal::BadStart);
    }
    if some_bad_char(plan) {
        return Err(Refusal::BadName);
    }
    if some_bad_entry(plan) {
        return Err(Refusal::BadEntry);
    }
    if some_bad_parent(plan) {
        return Err(Refusal::BadParent);
    }
    if childless(plan) {
        return Err(Refusal::Childless);
    }
    check_conditions(plan)
}

// Refuses a plan for the first cause that applies.
pub fn check(plan: &[u8]) -> Result<(), Refusal>
    ensures { returned result ≡ refusal plan.now }
{
    if plan.len() < 16 {
        return Err(Refusal::TooShort);
    }
    if sizes_bad(plan) {
        return Err(Refusal::BadSizes);
    }
    if plan.len() != whole_length(plan) {
        return Err(Refusal::WrongLength);
    }
    check_nodes(plan)
}
