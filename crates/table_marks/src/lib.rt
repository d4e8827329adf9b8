// The marks of a node of what is left of an accepted plan.
#![tactic(auto)]

ghost use Rattle.std.specs.Prelude.{◌≡◌, ◌<◌};
ghost use Rattle.plan_format.specs.Format.{node_count};
ghost use Rattle.plan_rules.specs.Rules.{refusal};
ghost use Rattle.base.specs.Zeros.{Zeros};
ghost use Rattle.tables.specs.Sizes.{NODES, STARTS};
ghost use Rattle.table_marks.specs.Marks.{LeftWords, WordsAndTree, AmongWords};

use marks_words::{Marks, node_words};
use plan_format::fields::nodes;
use table_all::{fill_among, fill_tables};
use tables::{CONDITIONS, NODES, Nodes, PAIRS, STARTS, Starts};

// The marks of a node as words, of the plan of which the marked nodes stand: blank tables, filled and asked. With
// `among` the orders between these are put in and no others, and any nodes may be absent; without it all orders are,
// which is right where branches are blocked. The table of the children is lent blank, and stays with the caller.
pub fn marks_and_children(
    plan: &[u8],
    standing: &Nodes,
    among: bool,
    from: &mut Starts,
    kids: &mut Nodes,
    node: usize,
) -> Marks
    requires { (refusal plan.now ≡ 0) × (node < node_count plan.now) × Zeros STARTS from.old
        × Zeros NODES kids.old }
    ensures { WordsAndTree plan.now standing.now among from.new
        kids.new node result }
{
    let mut kind = [0; NODES];
    let mut order = [0; PAIRS];
    let mut conds = [0; CONDITIONS];
    if among {
        fill_among(
            plan, standing, &mut kind, from, kids, &mut order, &mut conds,
        );
    } else {
        fill_tables(
            plan, standing, &mut kind, from, kids, &mut order, &mut conds,
        );
    }
    let n = nodes(plan);
    node_words(&kind, from, kids, &order, &conds, n, node)
}

// The marks alone, where branches are blocked.
pub fn node_marks(plan: &[u8], standing: &Nodes, node: usize) -> Marks
    requires { (refusal plan.now ≡ 0) × (node < node_count plan.now) }
    ensures { LeftWords plan.now standing.now node result }
{
    let mut from = [0; STARTS];
    let mut kids = [0; NODES];
    marks_and_children(plan, standing, false, &mut from, &mut kids, node)
}

// The marks alone, whatever nodes are absent.
pub fn marks_among(plan: &[u8], standing: &Nodes, node: usize) -> Marks
    requires { (refusal plan.now ≡ 0) × (node < node_count plan.now) }
    ensures { AmongWords plan.now standing.now node result }
{
    let mut from = [0; STARTS];
    let mut kids = [0; NODES];
    marks_and_children(plan, standing, true, &mut from, &mut kids, node)
}
