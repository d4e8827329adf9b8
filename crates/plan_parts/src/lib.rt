// A plan by its parts: its sizes, the byte of a part, and parts of one plan after another's.
#![tactic(auto)]

ghost use Rattle.std.specs.Prelude.{◌≡◌, false, ◌≤◌, ◌<◌, length};
ghost use Rattle.plan_format.specs.Whole.{Whole};
ghost use Rattle.plan_layout.specs.Layout.{PartOf};
ghost use Rattle.plan_layout.specs.Fields.{byte_in};
ghost use Rattle.plan_parts.specs.Inner.{Narrow};
ghost use Rattle.plan_parts.specs.Read.{sizes_of, fields_of};
ghost use Rattle.plan_parts.specs.Joined.{joined_sizes, shifted_fields, has_part, part_after};

use plan_format::fields::{
    condition_node, condition_value, conditions, earlier, flags, kind, later, minutes, name_char,
    nodes, orders, parent,
};
use plan_layout::{Part, Sizes, size_byte};

// The sizes of a plan.
pub fn sizes_of(plan: &[u8]) -> Sizes
    requires { 16 ≤ length plan.now }
    ensures { result ≡ sizes_of plan.now }
{
    Sizes {
        nodes: nodes(plan),
        conditions: conditions(plan),
        orders: orders(plan),
        flags: flags(plan),
    }
}

// The byte of a part of a plan under shifted node numbers; the root goes under node 0.
pub fn part_byte(plan: &[u8], shift: u8, part: Part) -> u8
    requires { Whole plan.now × PartOf (sizes_of plan.now) part
        × (byte_in (shifted_fields shift (fields_of plan.now)) part < 256) }
    ensures { result ≡ byte_in (shifted_fields shift (fields_of plan.now)) part }
{
    match part {
        Part::Size(i) => size_byte(sizes_of(plan), i),
        Part::Start(k) => plan[8 + k],
        Part::Name(k) => name_char(plan, k),
        Part::Parent(0) => 0,
        Part::Parent(n) => parent(plan, n) + shift,
        Part::Kind(n) => kind(plan, n),
        Part::MinutesLow(n) => (minutes(plan, n) % 256) as u8,
        Part::MinutesHigh(n) => (minutes(plan, n) / 256) as u8,
        Part::Task(i) => condition_node(plan, i) + shift,
        Part::ValueLow(i) => (condition_value(plan, i) % 256) as u8,
        Part::ValueHigh(i) => (condition_value(plan, i) / 256) as u8,
        Part::Earlier(j) => earlier(plan, j) + shift,
        Part::Later(j) => later(plan, j) + shift,
    }
}

// The sizes of two plans one after another; the flags are those of the one with more.
pub fn joined_sizes(first: Sizes, second: Sizes) -> Sizes
    requires { Narrow first × Narrow second }
    ensures { result ≡ joined_sizes first second }
{
    Sizes {
        nodes: first.nodes + second.nodes,
        conditions: first.conditions + second.conditions,
        orders: first.orders + second.orders,
        flags: first.flags.max(second.flags),
    }
}

// A plan of these sizes has the part.
pub fn has_part(sizes: Sizes, part: Part) -> bool
    requires { sizes.nodes ≤ 128 }
    ensures { result ≡ has_part sizes part }
{
    match part {
        Part::Size(k) | Part::Start(k) => k < 8,
        Part::Name(k) => k < 4 * sizes.nodes,
        Part::Parent(n) | Part::Kind(n) | Part::MinutesLow(n) | Part::MinutesHigh(n) => n
            < sizes.nodes,
        Part::Task(i) | Part::ValueLow(i) | Part::ValueHigh(i) => i < sizes.conditions,
        Part::Earlier(j) | Part::Later(j) => j < sizes.orders,
    }
}

// A part that a plan of these sizes does not have, counted from where that plan ends.
pub fn part_after(sizes: Sizes, part: Part) -> Part
    requires { (sizes.nodes ≤ 128) × (has_part sizes part ≡ false) }
    ensures { result ≡ part_after sizes part }
{
    match part {
        Part::Size(i) => Part::Size(i),
        Part::Start(k) => Part::Start(k),
        Part::Name(k) => Part::Name(k - 4 * sizes.nodes),
        Part::Parent(n) => Part::Parent(n - sizes.nodes),
        Part::Kind(n) => Part::Kind(n - sizes.nodes),
        Part::MinutesLow(n) => Part::MinutesLow(n - sizes.nodes),
        Part::MinutesHigh(n) => Part::MinutesHigh(n - sizes.nodes),
        Part::Task(i) => Part::Task(i - sizes.conditions),
        Part::ValueLow(i) => Part::ValueLow(i - sizes.conditions),
        Part::ValueHigh(i) => Part::ValueHigh(i - sizes.conditions),
        Part::Earlier(j) => Part::Earlier(j - sizes.orders),
        Part::Later(j) => Part::Later(j - sizes.orders),
    }
}
