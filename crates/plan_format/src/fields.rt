// The fields of a plan by position.
ghost use Rattle.std.specs.Prelude.{◌≡◌, ◌+◌, ◌*◌, ◌<◌, ◌≤◌, length};
ghost use Rattle.base.specs.Kinds.{kind_code};
ghost use Rattle.plan_format.specs.Format.{u16_at, node_count, cond_count, order_count, flag_count, start_flag};
ghost use Rattle.plan_format.specs.Format.{name_char, entry_at, parent_of, kind_of, minutes_of, cond_node, cond_value};
ghost use Rattle.plan_format.specs.Format.{earlier_of, later_of, is_kind, is_group};
ghost use Rattle.plan_format.specs.Whole.{Whole};

use base::kinds::Kind;

pub fn u16_at(plan: &[u8], at: usize) -> u16
    requires { at + 1 < length plan.now }
    ensures { result ≡ u16_at plan.now at }
{
    u16::from(plan[at]) + 256 * u16::from(plan[at + 1])
}

#[tactic(auto, unfolding(crate::specs::Format::node_count))]
pub fn nodes(plan: &[u8]) -> usize
    requires { 16 ≤ length plan.now }
    ensures { result ≡ node_count plan.now }
{
    usize::from(u16_at(plan, 0))
}

#[tactic(auto, unfolding(crate::specs::Format::cond_count))]
pub fn conditions(plan: &[u8]) -> usize
    requires { 16 ≤ length plan.now }
    ensures { result ≡ cond_count plan.now }
{
    usize::from(u16_at(plan, 2))
}

#[tactic(auto, unfolding(crate::specs::Format::order_count))]
pub fn orders(plan: &[u8]) -> usize
    requires { 16 ≤ length plan.now }
    ensures { result ≡ order_count plan.now }
{
    usize::from(u16_at(plan, 4))
}

#[tactic(auto, unfolding(crate::specs::Format::flag_count))]
pub fn flags(plan: &[u8]) -> usize
    requires { 16 ≤ length plan.now }
    ensures { result ≡ flag_count plan.now }
{
    usize::from(u16_at(plan, 6))
}

pub fn start_flag(plan: &[u8], f: usize) -> bool
    requires { (f < 64) × (16 ≤ length plan.now) }
    ensures { result ≡ start_flag plan.now f }
{
    let x = plan[8 + f / 8];
    (x >> (f % 8)) % 2 == 1
}

// Character k of all names.
pub fn name_char(plan: &[u8], k: usize) -> u8
    requires { (k < 4 * node_count plan.now) × Whole plan.now }
    ensures { result ≡ name_char plan.now k }
{
    plan[16 + k]
}

// Where the entry of node n begins.
fn entry_at(plan: &[u8], n: usize) -> usize
    requires { (n < node_count plan.now) × Whole plan.now }
    ensures { result ≡ entry_at plan.now n }
{
    16 + 4 * nodes(plan) + 4 * n
}

pub fn parent(plan: &[u8], n: usize) -> u8
    requires { (n < node_count plan.now) × Whole plan.now }
    ensures { result ≡ parent_of plan.now n }
{
    let at = entry_at(plan, n);
    plan[at]
}

pub fn kind(plan: &[u8], n: usize) -> u8
    requires { (n < node_count plan.now) × Whole plan.now }
    ensures { result ≡ kind_of plan.now n }
{
    let at = entry_at(plan, n) + 1;
    plan[at]
}

pub fn minutes(plan: &[u8], n: usize) -> u16
    requires { (n < node_count plan.now) × Whole plan.now }
    ensures { result ≡ minutes_of plan.now n }
{
    u16_at(plan, entry_at(plan, n) + 2)
}

pub fn condition_node(plan: &[u8], i: usize) -> u8
    requires { (i < cond_count plan.now) × Whole plan.now }
    ensures { result ≡ cond_node plan.now i }
{
    let at = 16 + 8 * nodes(plan) + i;
    plan[at]
}

pub fn condition_value(plan: &[u8], i: usize) -> u16
    requires { (i < cond_count plan.now) × Whole plan.now }
    ensures { result ≡ cond_value plan.now i }
{
    u16_at(plan, 16 + 8 * nodes(plan) + conditions(plan) + 2 * i)
}

pub fn earlier(plan: &[u8], j: usize) -> u8
    requires { (j < order_count plan.now) × Whole plan.now }
    ensures { result ≡ earlier_of plan.now j }
{
    let at = 16 + 8 * nodes(plan) + 3 * conditions(plan) + j;
    plan[at]
}

pub fn later(plan: &[u8], j: usize) -> u8
    requires { (j < order_count plan.now) × Whole plan.now }
    ensures { result ≡ later_of plan.now j }
{
    let at = 16 + 8 * nodes(plan) + 3 * conditions(plan) + orders(plan) + j;
    plan[at]
}

// Node n is one of the plan, of this kind.
#[tactic(auto, unfolding(crate::specs::Format::is_kind))]
pub fn is_kind(plan: &[u8], n: usize, k: Kind) -> bool
    requires { Whole plan.now }
    ensures { result ≡ is_kind plan.now n (kind_code k) }
{
    n < nodes(plan) && kind(plan, n) == k as u8
}

#[tactic(auto, unfolding(crate::specs::Format::is_group))]
pub fn is_group(plan: &[u8], n: usize) -> bool
    requires { Whole plan.now }
    ensures { result ≡ is_group plan.now n }
{
    is_kind(plan, n, Kind::AllOf)
        || is_kind(plan, n, Kind::AnyOf)
        || is_kind(plan, n, Kind::Optional)
}
