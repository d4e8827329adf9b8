// Merged plans (02: pooled books).
#![tactic(auto)]

ghost use Rattle.std.specs.Prelude.{◌≡◌, true, ◌||◌, ltb};
ghost use Rattle.answers.specs.Refusals.{told};
ghost use Rattle.plan_format.specs.Whole.{Whole};
ghost use Rattle.plan_layout.specs.Layout.{PartOf};
ghost use Rattle.plan_layout.specs.Fields.{byte_in};
ghost use Rattle.plan_parts.specs.Joined.{has_part};
ghost use Rattle.plan_merge.specs.Model.{root_sizes, merged_sizes, merged_fields, refused34};
ghost use Rattle.plan_merge.specs.Inner.{Mergeable};
ghost use Rattle.plan_merge.specs.Calls.{Merges};

use answers::Refusal;
use base::kinds::Kind;
use plan_check::check;
use plan_format::fields::{flags, start_flag};
use plan_layout::{Part, Sizes, plan_length, size_byte, write_parts};
use plan_parts::{has_part, joined_sizes, part_after, part_byte, sizes_of};

// The new root alone.
fn root_sizes() -> Sizes
    ensures { result ≡ root_sizes }
{
    Sizes {
        nodes: 1,
        conditions: 0,
        orders: 0,
        flags: 0,
    }
}

// 34: a flag that both plans have starts differently.
fn starts_apart(first: &[u8], second: &[u8]) -> bool
    requires { Whole first.now × Whole second.now }
    ensures { result ≡ refused34 first.now second.now }
{
    let shared = flags(first).min(flags(second));
    (0..shared).any(|f| start_flag(first, f) != start_flag(second, f))
}

// 33: a size passes its limit.
fn too_large(sizes: Sizes) -> bool
    ensures { result ≡ ((ltb 128 sizes.nodes || ltb 1024 sizes.conditions) || ltb 512 sizes.orders) }
{
    sizes.nodes > 128 || sizes.conditions > 1024 || sizes.orders > 512
}

// A byte of the sizes, of the start flags (those of the plan with more flags) or of HULL.
fn new_byte(first: &[u8], second: &[u8], sizes: Sizes, part: Part) -> u8
    requires { Mergeable first.now second.now × (sizes ≡ merged_sizes first.now second.now)
        × (has_part root_sizes part ≡ true) }
    ensures { result ≡ byte_in (merged_fields first.now second.now) part }
{
    match part {
        Part::Size(i) => size_byte(sizes, i),
        Part::Start(k) => {
            if flags(first) <= flags(second) {
                second[8 + k]
            } else {
                first[8 + k]
            }
        }
        Part::Name(k) => b"HULL"[k],
        Part::Parent(_) => 255,
        Part::Kind(_) => Kind::AllOf as u8,
        Part::MinutesLow(_) | Part::MinutesHigh(_) => 0,
        Part::Task(_)
        | Part::ValueLow(_)
        | Part::ValueHigh(_)
        | Part::Earlier(_)
        | Part::Later(_) => 0,
    }
}

// The byte of a part: a new one, one of the first plan, or one of the second.
fn byte_of(first: &[u8], second: &[u8], sizes: Sizes, part: Part) -> u8
    requires { Mergeable first.now second.now × (sizes ≡ merged_sizes first.now second.now)
        × PartOf (merged_sizes first.now second.now) part }
    ensures { result ≡ byte_in (merged_fields first.now second.now) part }
{
    let root = root_sizes();
    if has_part(root, part) {
        return new_byte(first, second, sizes, part);
    }
    let below = part_after(root, part);
    let before = sizes_of(first);
    if has_part(before, below) {
        return part_byte(first, 1, below);
    }
    let own = part_after(before, below);
    part_byte(second, 1 + before.nodes as u8, own)
}

// Writes the plan merged from two from the first byte; refused (1 to 14 of the first, then of the second, 33, 34, 15),
// nothing changes.
pub fn merge(first: &[u8], second: &[u8], out: &mut [u8]) -> Result<usize, Refusal>
    ensures { Merges first.now second.now out.old (told result) out.new }
{
    check(first)?;
    check(second)?;
    let sizes = joined_sizes(
        root_sizes(),
        joined_sizes(sizes_of(first), sizes_of(second)),
    );
    if too_large(sizes) {
        return Err(Refusal::MergedSizes);
    }
    if starts_apart(first, second) {
        return Err(Refusal::StartsApart);
    }
    let end = plan_length(sizes);
    if out.len() < end {
        return Err(Refusal::NoRoom);
    }
    write_parts(sizes, out, |part| byte_of(first, second, sizes, part));
    Ok(end)
}
