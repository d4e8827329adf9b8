// Generated plans (02: soak books).
#![tactic(auto)]

ghost use Rattle.std.specs.Prelude.{◌≡◌, ◌≤◌, ◌<◌};
ghost use Rattle.answers.specs.Refusals.{told};
ghost use Rattle.plan_layout.specs.Layout.{PartOf};
ghost use Rattle.plan_layout.specs.Fields.{byte_in};
ghost use Rattle.plan_draws.specs.Inner.{GROUPS};
ghost use Rattle.plan_generate.specs.Model.{name_in, parent_in, generated, refused30};
ghost use Rattle.plan_generate.specs.Inner.{Prepared};
ghost use Rattle.plan_generate.specs.Calls.{Generates};

use answers::Refusal;
use plan_draws::{
    DRAWS, DrawTable, GROUPS, OrderTable, Recipe, TASKS, draw_all, find_orders, kind_of,
    literal_of, minutes_of,
};
use plan_layout::{Part, Sizes, plan_length, size_byte, write_parts};

// Character k of the names: SOAK, then G or T and the node number in three digits.
fn name_byte(groups: usize, k: usize) -> u8
    requires { k < 512 }
    ensures { result ≡ name_in groups k }
{
    let node = k / 4;
    let place = k % 4;
    if node == 0 {
        return b"SOAK"[place];
    }
    match place {
        0 => { if node <= groups { b'G' } else { b'T' } }
        1 => b'0' + (node / 100) as u8,
        2 => b'0' + (node / 10 % 10) as u8,
        _ => b'0' + (node % 10) as u8,
    }
}

// The parent of a node: none of the root, the root of a group, and the groups in turn of the tasks.
fn parent_of(groups: usize, node: usize) -> u8
    requires { (0 < groups) × (groups ≤ GROUPS) }
    ensures { result ≡ parent_in groups node }
{
    if node == 0 {
        return 255;
    }
    if node <= groups {
        return 0;
    }
    1 + ((node - 1 - groups) % groups) as u8
}

// The byte of a part.
#[tactic(auto, unfolding(crate::specs::Model::generated))]
fn byte_of(recipe: Recipe, draws: &DrawTable, ordered: &OrderTable, sizes: Sizes, part: Part) -> u8
    requires { Prepared recipe draws.now ordered.now sizes × PartOf sizes part }
    ensures { result ≡ byte_in (generated recipe) part }
{
    match part {
        Part::Size(i) => size_byte(sizes, i),
        Part::Start(_) => 0,
        Part::Name(k) => name_byte(recipe.groups, k),
        Part::Parent(n) => parent_of(recipe.groups, n),
        Part::Kind(n) => kind_of(recipe, draws, n),
        Part::MinutesLow(n) => minutes_of(recipe, draws, n),
        Part::MinutesHigh(_) => 0,
        Part::Task(i) => (1 + recipe.groups + i / 2) as u8,
        Part::ValueLow(i) => literal_of(recipe, draws, i),
        Part::ValueHigh(i) => (i % 2) as u8,
        Part::Earlier(j) => ordered[j] + 1,
        Part::Later(j) => ordered[j] + 2,
    }
}

// 30: g or t is not allowed.
#[tactic(auto, using(std::proofs::lemmas::Bool::Decides::nat_tests), unfolding(crate::specs::Model::refused30))]
fn refused(recipe: Recipe) -> bool
    ensures { result ≡ refused30 recipe }
{
    recipe.groups < 1
        || recipe.groups > GROUPS
        || recipe.tasks < recipe.groups
        || recipe.tasks > TASKS
}

// Writes the plan that the seed gives, with these groups and tasks, from the first byte; refused (30, 15), nothing
// changes.
pub fn generate(seed: u32, groups: usize, tasks: usize, out: &mut [u8]) -> Result<usize, Refusal>
    ensures { Generates (record { seed = seed; groups = groups; tasks = tasks }) out.old (told result)
        out.new }
{
    let recipe = Recipe {
        seed,
        groups,
        tasks,
    };
    if refused(recipe) {
        return Err(Refusal::BadRecipe);
    }
    let mut draws = [0u16; DRAWS];
    draw_all(seed, &mut draws);
    let mut ordered = [0u8; GROUPS];
    let orders = find_orders(recipe, &draws, &mut ordered);
    let sizes = Sizes {
        nodes: 1 + groups + tasks,
        conditions: 2 * tasks,
        orders,
        flags: 8,
    };
    let end = plan_length(sizes);
    if out.len() < end {
        return Err(Refusal::NoRoom);
    }
    write_parts(
        sizes,
        out,
        |part| byte_of(recipe, &draws, &ordered, sizes, part),
    );
    Ok(end)
}
