// The draws of a generated plan, and the fields that they give.
#![tactic(auto)]

ghost use Rattle.std.specs.Prelude.{◌≡◌, ◌+◌, ◌*◌, ◌%◌, ◌<◌, length};
ghost use Rattle.plan_draws.specs.Drawn.{Allowed};
ghost use Rattle.plan_draws.specs.Model.{kind_in, minutes_in, value_in};
ghost use Rattle.plan_draws.specs.Inner.{GROUPS, DRAWS, Drew, OrdersFound};

use base::kinds::Kind;

// What a plan is generated from: 02's seed, g and t.
#[derive(Clone, Copy)]
pub struct Recipe {
    pub seed: u32,
    pub groups: usize,
    pub tasks: usize,
}

// Groups and tasks, at most.
pub const GROUPS: usize = 60;

pub const TASKS: usize = 60;

// One draw for each group, four for each task, one for each group but the last.
pub const DRAWS: usize = GROUPS + 4 * TASKS + GROUPS - 1;

// What each draw gives before the remainder: the upper half of the state.
pub type DrawTable = [u16; DRAWS];

// The groups, counted from 0, that come before the next.
pub type OrderTable = [u8; GROUPS];

// Makes all draws, one after another.
pub fn draw_all(seed: u32, draws: &mut DrawTable)
    requires { length draws.old ≡ DRAWS }
    ensures { Drew seed draws.new }
{
    let mut state = seed;
    for draw in draws.iter_mut() {
        state = state.wrapping_add(2654435769);
        *draw = (state >> 16) as u16;
    }
}

// Finds the groups that come before the next, in rising order, and answers how many they are.
pub fn find_orders(recipe: Recipe, draws: &DrawTable, ordered: &mut OrderTable) -> usize
    requires { Allowed recipe × Drew recipe.seed draws.now × (length ordered.old ≡ GROUPS) }
    ensures { OrdersFound recipe result ordered.new }
{
    let first = recipe.groups + 4 * recipe.tasks;
    let mut found = 0;
    for i in 0..recipe.groups - 1 {
        if draws[first + i] % 2 == 1 {
            ordered[found] = i as u8;
            found += 1;
        }
    }
    found
}

// The kind of a node: the root is all-of, a group's is drawn.
pub fn kind_of(recipe: Recipe, draws: &DrawTable, node: usize) -> u8
    requires { Allowed recipe × Drew recipe.seed draws.now }
    ensures { result ≡ kind_in recipe node }
{
    if node == 0 {
        return Kind::AllOf as u8;
    }
    if node <= recipe.groups {
        return Kind::AllOf as u8 + (draws[node - 1] % 2) as u8;
    }
    Kind::Task as u8
}

// The minutes of a node: a task's are drawn.
pub fn minutes_of(recipe: Recipe, draws: &DrawTable, node: usize) -> u8
    requires { Allowed recipe × (node < 1 + recipe.groups + recipe.tasks) × Drew recipe.seed draws.now }
    ensures { result ≡ minutes_in recipe node }
{
    if node <= recipe.groups {
        return 0;
    }
    let first = recipe.groups + 4 * (node - 1 - recipe.groups);
    (draws[first] % 60) as u8
}

// The low byte of the value of condition i, its flag and sign: task i / 2 has a precondition, then a postcondition.
pub fn literal_of(recipe: Recipe, draws: &DrawTable, i: usize) -> u8
    requires { Allowed recipe × (i < 2 * recipe.tasks) × Drew recipe.seed draws.now }
    ensures { result ≡ value_in recipe i % 256 }
{
    let first = recipe.groups + 4 * (i / 2);
    let flag = draws[first + 1] % 8;
    let sign = draws[first + 2 + i % 2] % 2;
    (flag + 64 * sign) as u8
}
