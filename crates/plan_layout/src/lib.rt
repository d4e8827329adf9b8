// The layout of a plan: what each of its bytes holds.
#![tactic(auto)]

ghost use Rattle.std.specs.Prelude.{◌≡◌, ◌<◌, ◌≤◌, length};
ghost use Rattle.plan_layout.specs.Layout.{Limited, size_number, size_byte, plan_length, entry_part, value_part};
ghost use Rattle.plan_layout.specs.Layout.{part_at};
ghost use Rattle.plan_layout.specs.Written.{TakesParts, WritesParts};

// 01's N, C, K and V.
#[derive(Clone, Copy)]
pub struct Sizes {
    pub nodes: usize,
    pub conditions: usize,
    pub orders: usize,
    pub flags: usize,
}

// What a byte holds: one of the sizes' bytes or of the start flags', a character of the names, a field of a node, of
// a condition or of an order; of a field of two bytes the low one or the high one.
#[derive(Clone, Copy)]
pub enum Part {
    Size(usize),
    Start(usize),
    Name(usize),
    Parent(usize),
    Kind(usize),
    MinutesLow(usize),
    MinutesHigh(usize),
    Task(usize),
    ValueLow(usize),
    ValueHigh(usize),
    Earlier(usize),
    Later(usize),
}

// The length of a plan of these sizes.
pub fn plan_length(sizes: Sizes) -> usize
    requires { Limited sizes }
    ensures { result ≡ plan_length sizes }
{
    16 + 8 * sizes.nodes + 3 * sizes.conditions + 2 * sizes.orders
}

// Number k of the sizes.
fn size_number(sizes: Sizes, k: usize) -> usize
    ensures { result ≡ size_number sizes k }
{
    match k {
        0 => sizes.nodes,
        1 => sizes.conditions,
        2 => sizes.orders,
        _ => sizes.flags,
    }
}

// Byte i of the sizes.
pub fn size_byte(sizes: Sizes, i: usize) -> u8
    requires { Limited sizes }
    ensures { result ≡ size_byte sizes i }
{
    let number = size_number(sizes, i / 2);
    if i % 2 == 0 {
        (number % 256) as u8
    } else {
        (number / 256) as u8
    }
}

// Byte k of the nodes' entries.
fn entry_part(k: usize) -> Part
    ensures { result ≡ entry_part k }
{
    match k % 4 {
        0 => Part::Parent(k / 4),
        1 => Part::Kind(k / 4),
        2 => Part::MinutesLow(k / 4),
        _ => Part::MinutesHigh(k / 4),
    }
}

// Byte k of the conditions' values.
fn value_part(k: usize) -> Part
    ensures { result ≡ value_part k }
{
    if k % 2 == 0 {
        Part::ValueLow(k / 2)
    } else {
        Part::ValueHigh(k / 2)
    }
}

// What byte i holds.
pub fn part_at(sizes: Sizes, i: usize) -> Part
    requires { Limited sizes }
    ensures { result ≡ part_at sizes i }
{
    let entries = 16 + 4 * sizes.nodes;
    let tasks = 16 + 8 * sizes.nodes;
    let values = tasks + sizes.conditions;
    let earlier = tasks + 3 * sizes.conditions;
    let later = earlier + sizes.orders;
    if i < 8 {
        return Part::Size(i);
    }
    if i < 16 {
        return Part::Start(i - 8);
    }
    if i < entries {
        return Part::Name(i - 16);
    }
    if i < tasks {
        return entry_part(i - entries);
    }
    if i < values {
        return Part::Task(i - tasks);
    }
    if i < earlier {
        return value_part(i - values);
    }
    if i < later {
        return Part::Earlier(i - earlier);
    }
    Part::Later(i - later)
}

// Writes a plan of these sizes from the first byte, each byte by the part that it holds.
pub fn write_parts<F: Fn(Part) -> u8>(sizes: Sizes, out: &mut [u8], byte: F)
    requires { Limited sizes × (plan_length sizes ≤ length out.old) × TakesParts (F.pre byte) sizes }
    ensures { WritesParts (F.post byte) sizes out.old out.new }
{
    for i in 0..plan_length(sizes) {
        out[i] = byte(part_at(sizes, i));
    }
}
