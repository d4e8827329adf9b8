// The tests of single flags, characters, nodes, conditions and orders.
ghost use Rattle.std.specs.Prelude.{◌≡◌, ◌+◌, ◌*◌, ◌<◌};
ghost use Rattle.plan_format.specs.Format.{node_count, cond_count, order_count, cond_node, cond_value, earlier_of};
ghost use Rattle.plan_format.specs.Format.{later_of};
ghost use Rattle.plan_format.specs.Whole.{Whole};
ghost use Rattle.plan_rules.specs.Rules.{bad_start, bad_char, bad_entry, bad_parent, bad_condition, not_below};
ghost use Rattle.plan_rules.specs.Rules.{not_rising, is_child, bad_pair, bad_order};

use base::kinds::Kind;
use plan_codes::names::allowed;
use plan_codes::value::value_bad;
use plan_format::fields::{
    condition_node, condition_value, earlier, flags, is_group, is_kind, kind, later, minutes,
    name_char, nodes, parent, start_flag,
};

#[tactic(auto, unfolding(crate::specs::Rules::bad_start))]
pub fn bad_start(plan: &[u8], f: usize) -> bool
    requires { (f < 64) × Whole plan.now }
    ensures { result ≡ bad_start plan.now f }
{
    flags(plan) <= f && start_flag(plan, f)
}

#[tactic(auto, unfolding(crate::specs::Rules::bad_char))]
pub fn bad_char(plan: &[u8], k: usize) -> bool
    requires { (k < 4 * node_count plan.now) × Whole plan.now }
    ensures { result ≡ bad_char plan.now k }
{
    !allowed(name_char(plan, k))
}

#[tactic(auto, unfolding(crate::specs::Rules::bad_entry))]
pub fn bad_entry(plan: &[u8], n: usize) -> bool
    requires { (n < node_count plan.now) × Whole plan.now }
    ensures { result ≡ bad_entry plan.now n }
{
    let m = minutes(plan, n);
    kind(plan, n) > Kind::Optional as u8
        || (is_group(plan, n) && m > 0)
        || (is_kind(plan, n, Kind::Task) && m > 10080)
}

#[tactic(auto, unfolding(crate::specs::Rules::bad_parent))]
pub fn bad_parent(plan: &[u8], n: usize) -> bool
    requires { (n < node_count plan.now) × Whole plan.now }
    ensures { result ≡ bad_parent plan.now n }
{
    let p = usize::from(parent(plan, n));
    if n == 0 {
        p != 255
    } else {
        !(p < n && is_group(plan, p))
    }
}

#[tactic(auto, unfolding(crate::specs::Rules::bad_condition))]
pub fn bad_condition(plan: &[u8], i: usize) -> bool
    requires { (i < cond_count plan.now) × Whole plan.now }
    ensures { result ≡ bad_condition plan.now i }
{
    !is_kind(plan, usize::from(condition_node(plan, i)), Kind::Task)
        || value_bad(condition_value(plan, i), flags(plan))
}

// Not a lower first part, nor the same with a lower second part.
#[tactic(auto, unfolding(crate::specs::Rules::not_below))]
fn not_below(x: u8, y: u16, x2: u8, y2: u16) -> bool
    ensures { result ≡ not_below x y x2 y2 }
{
    !(x < x2 || (x == x2 && y < y2))
}

#[tactic(auto, unfolding(crate::specs::Rules::not_rising))]
pub fn conditions_fall(plan: &[u8], i: usize) -> bool
    requires { (i + 1 < cond_count plan.now) × Whole plan.now }
    ensures { result ≡ not_rising (cond_node plan.now) (cond_value plan.now) i }
{
    not_below(
        condition_node(plan, i),
        condition_value(plan, i),
        condition_node(plan, i + 1),
        condition_value(plan, i + 1),
    )
}

#[tactic(auto, unfolding(crate::specs::Rules::not_rising))]
pub fn orders_fall(plan: &[u8], j: usize) -> bool
    requires { (j + 1 < order_count plan.now) × Whole plan.now }
    ensures { result ≡ not_rising (earlier_of plan.now) (later_of plan.now) j }
{
    not_below(
        earlier(plan, j),
        u16::from(later(plan, j)),
        earlier(plan, j + 1),
        u16::from(later(plan, j + 1)),
    )
}

// Node n is a child of g.
#[tactic(auto, unfolding(crate::specs::Rules::is_child))]
fn is_child(plan: &[u8], g: usize, n: usize) -> bool
    requires { Whole plan.now }
    ensures { result ≡ is_child plan.now g n }
{
    n > 0 && n < nodes(plan) && usize::from(parent(plan, n)) == g
}

#[tactic(auto, unfolding(crate::specs::Rules::bad_pair, crate::specs::Rules::is_child))]
fn bad_pair(plan: &[u8], x: usize, y: usize) -> bool
    requires { Whole plan.now }
    ensures { result ≡ bad_pair plan.now x y }
{
    if nodes(plan) <= x {
        return true;
    }
    let g = usize::from(parent(plan, x));
    let siblings = is_kind(plan, g, Kind::AllOf) && is_child(plan, g, x) && is_child(plan, g, y);
    !siblings || x >= y
}

#[tactic(auto, unfolding(crate::specs::Rules::bad_order))]
pub fn bad_order(plan: &[u8], j: usize) -> bool
    requires { (j < order_count plan.now) × Whole plan.now }
    ensures { result ≡ bad_order plan.now j }
{
    bad_pair(
        plan,
        usize::from(earlier(plan, j)),
        usize::from(later(plan, j)),
    )
}
