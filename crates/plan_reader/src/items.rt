// What a plan has one after another, nodes, then conditions, then orders, by position.
ghost use Rattle.std.specs.Prelude.{◌≡◌, ◌<◌};
ghost use Rattle.plan_format.specs.Format.{node_count, cond_count, order_count};
ghost use Rattle.plan_format.specs.Whole.{Whole};
ghost use Rattle.plan_reader.specs.Items.{node_item, condition_of, order_of, item_count, item_of};

use plan_format::fields::{
    condition_node, condition_value, conditions, earlier, kind, later, minutes, nodes, orders,
    parent,
};

#[derive(Drop)]
pub struct Node {
    pub parent: u8,
    pub kind: u8,
    pub minutes: u16,
}

#[derive(Drop)]
pub struct Condition {
    pub node: u8,
    pub value: u16,
}

#[derive(Drop)]
pub struct Order {
    pub earlier: u8,
    pub later: u8,
}

#[derive(Drop)]
pub enum Item {
    Node(Node),
    Condition(Condition),
    Order(Order),
}

fn node_at(plan: &[u8], n: usize) -> Node
    requires { (n < node_count plan.now) × Whole plan.now }
    ensures { result ≡ node_item plan.now n }
{
    Node {
        parent: parent(plan, n),
        kind: kind(plan, n),
        minutes: minutes(plan, n),
    }
}

fn condition_at(plan: &[u8], i: usize) -> Condition
    requires { (i < cond_count plan.now) × Whole plan.now }
    ensures { result ≡ condition_of plan.now i }
{
    Condition {
        node: condition_node(plan, i),
        value: condition_value(plan, i),
    }
}

fn order_at(plan: &[u8], j: usize) -> Order
    requires { (j < order_count plan.now) × Whole plan.now }
    ensures { result ≡ order_of plan.now j }
{
    Order {
        earlier: earlier(plan, j),
        later: later(plan, j),
    }
}

// The number of items.
pub fn item_count(plan: &[u8]) -> usize
    requires { Whole plan.now }
    ensures { result ≡ item_count plan.now }
{
    nodes(plan) + conditions(plan) + orders(plan)
}

pub fn item_at(plan: &[u8], at: usize) -> Item
    requires { (at < item_count plan.now) × Whole plan.now }
    ensures { result ≡ item_of plan.now at }
{
    let n = nodes(plan);
    if at < n {
        return Item::Node(node_at(plan, at));
    }
    let i = at - n;
    let c = conditions(plan);
    if i < c {
        return Item::Condition(condition_at(plan, i));
    }
    Item::Order(order_at(plan, i - c))
}
