// The table of relation codes: what one order adds to it; all orders between nodes that stand.
#![tactic(auto)]

ghost use Rattle.std.specs.Prelude.{◌≡◌, ◌&&◌, ◌<◌, length};
ghost use Rattle.tables.specs.Sizes.{NODES, PAIRS};
ghost use Rattle.node_sets.specs.Sets.{marked};
ghost use Rattle.plan_rules.specs.Rules.{refusal};
ghost use Rattle.table_orders.specs.Links.{Unlinked, Linked, Leading};
ghost use Rattle.table_orders.specs.Among.{OrdersAmong};

use plan_format::fields::{earlier, later, orders};
use tables::codes::Relation;
use tables::{NODES, Nodes, Orders};

// Puts a before c.
fn link(order: &mut Orders, a: usize, c: usize)
    requires { (a < c) × (c < NODES) × (length order.old ≡ PAIRS) }
    ensures { Linked order.old order.new c (λ z. z ≡ a) }
{
    order[a * NODES + c] = Relation::Before as u8;
    order[c * NODES + a] = Relation::After as u8;
}

// Puts a, and all that the table has before a, before b. Orders rise by (earlier, later), and earlier is the lower
// number: from the first to the last, all that comes before `earlier` is known at each.
pub fn link_all(order: &mut Orders, a: usize, b: usize)
    requires { (a < b) × (b < NODES) × (length order.old ≡ PAIRS) }
    ensures { Linked order.old order.new b (Leading order.old a) }
{
    for c in 0..a {
        if order[c * NODES + a] == Relation::Before as u8 {
            link(order, c, b);
        }
    }
    link(order, a, b);
}

// Whether two nodes stand.
fn both_stand(standing: &Nodes, a: usize, b: usize) -> bool
    requires { (a < NODES) × (b < NODES) }
    ensures { result ≡ (marked standing.now a && marked standing.now b) }
{
    standing[a] == 1 && standing[b] == 1
}

// Puts the orders of an accepted plan into a table without any, those between nodes that stand. An order of which a
// node does not stand puts nothing before anything.
pub fn fill_orders(plan: &[u8], standing: &Nodes, order: &mut Orders)
    requires { (refusal plan.now ≡ 0) × Unlinked order.old }
    ensures { OrdersAmong plan.now standing.now order.new }
{
    for i in 0..orders(plan) {
        let a = usize::from(earlier(plan, i));
        let b = usize::from(later(plan, i));
        if both_stand(standing, a, b) {
            link_all(order, a, b);
        }
    }
}
