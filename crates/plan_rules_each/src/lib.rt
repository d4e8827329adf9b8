// The rules that test each flag, character, node, condition or order by itself: a search for an index that breaks the
// rule.
#![tactic(auto)]

ghost use Rattle.std.specs.Prelude.{◌≡◌};
ghost use Rattle.plan_format.specs.Whole.{Whole};
ghost use Rattle.plan_rules.specs.Rules.{cause4, cause5, cause6, cause7, cause9, cause10, cause13, cause14};

use plan_format::fields::{conditions, nodes, orders};
use plan_rules::tests::{
    bad_char, bad_condition, bad_entry, bad_order, bad_parent, bad_start, conditions_fall,
    orders_fall,
};

// 4: some start flag is none of the plan's.
pub fn some_bad_start(plan: &[u8]) -> bool
    requires { Whole plan.now }
    ensures { result ≡ cause4 plan.now }
{
    (0..64).any(|f| bad_start(plan, f))
}

// 5: some character of the names is not allowed.
pub fn some_bad_char(plan: &[u8]) -> bool
    requires { Whole plan.now }
    ensures { result ≡ cause5 plan.now }
{
    (0..4 * nodes(plan)).any(|k| bad_char(plan, k))
}

// 6.
pub fn some_bad_entry(plan: &[u8]) -> bool
    requires { Whole plan.now }
    ensures { result ≡ cause6 plan.now }
{
    (0..nodes(plan)).any(|n| bad_entry(plan, n))
}

// 7.
pub fn some_bad_parent(plan: &[u8]) -> bool
    requires { Whole plan.now }
    ensures { result ≡ cause7 plan.now }
{
    (0..nodes(plan)).any(|n| bad_parent(plan, n))
}

// 9.
pub fn some_bad_condition(plan: &[u8]) -> bool
    requires { Whole plan.now }
    ensures { result ≡ cause9 plan.now }
{
    (0..conditions(plan)).any(|i| bad_condition(plan, i))
}

// 10: some condition is not above the one before it.
pub fn some_conditions_fall(plan: &[u8]) -> bool
    requires { Whole plan.now }
    ensures { result ≡ cause10 plan.now }
{
    (0..conditions(plan).saturating_sub(1)).any(|i| conditions_fall(plan, i))
}

// 13.
pub fn some_bad_order(plan: &[u8]) -> bool
    requires { Whole plan.now }
    ensures { result ≡ cause13 plan.now }
{
    (0..orders(plan)).any(|j| bad_order(plan, j))
}

// 14: some order is not above the one before it.
pub fn some_orders_fall(plan: &[u8]) -> bool
    requires { Whole plan.now }
    ensures { result ≡ cause14 plan.now }
{
    (0..orders(plan).saturating_sub(1)).any(|j| orders_fall(plan, j))
}
