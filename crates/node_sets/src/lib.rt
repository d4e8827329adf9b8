// Sets of nodes: a table that marks one, or those of a list; whether a list strictly rises.
#![tactic(auto)]

ghost use Rattle.std.specs.Prelude.{◌≡◌, ◌<◌};
ghost use Rattle.runs.specs.Searches.{listed};
ghost use Rattle.runs.specs.Model.Monitor.{rising_b};
ghost use Rattle.node_sets.specs.Sets.{marked, AllMarked, Each};
ghost use Rattle.node_sets.specs.One.{only};
ghost use Rattle.tables.specs.Sizes.{NODES};

use tables::{NODES, Nodes};

// A table with one node marked.
pub fn mark_one(node: usize) -> Nodes
    requires { node < NODES }
    ensures { marked result ≡ only node }
{
    let mut marks = [0; NODES];
    marks[node] = 1;
    marks
}

// A table with the nodes of a list marked.
pub fn mark_all(list: &[usize]) -> Nodes
    requires { Each list.now (λ t. t < NODES) }
    ensures { marked result ≡ listed list.now }
{
    let mut marks = [0; NODES];
    for t in list {
        marks[*t] = 1;
    }
    marks
}

// A table with every node marked.
pub fn all_nodes() -> Nodes
    ensures { AllMarked result }
{
    [1u8; NODES]
}

// The numbers strictly rise. They are read up to the first that is not above the one before.
pub fn rises(list: &[usize]) -> bool
    ensures { result ≡ rising_b list.now }
{
    list.is_sorted_by(|a, b| a < b)
}
