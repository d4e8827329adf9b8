// A reader hands over the nodes, conditions and orders of a plan (01: book) one after another: `item_at` does the work
// on the slice and the position. `table_all::fill_items` draws them all, by an iterator over the reader.
#![tactic(auto)]

ghost use Rattle.std.specs.Prelude.{◌≡◌, ◌-◌, ◌<◌, ◌≤◌, MatchOption};
ghost use Rattle.std.specs.Iterator.{at_most};
ghost use Rattle.plan_format.specs.Whole.{Whole};
ghost use Rattle.plan_reader.specs.Items.{item_count, item_of, advanced};

use crate::items::{Item, item_at};

pub mod items;

#[derive(Drop)]
pub struct Reader<'a> {
    pub plan: &'a [u8],
    pub at: usize,
}

impl<'a> Reader<'a> {
    // Hands over what stands at the position, and moves on.
    pub fn next<'s>(&'s mut self) -> Item
        requires { (self.old.at < item_count self.old.plan.now) × Whole self.old.plan.now }
        ensures { (result ≡ item_of self.old.plan.now self.old.at)
            × (self.new ≡ advanced self.old) }
    {
        let item = item_at(self.plan, self.at);
        self.at += 1;
        item
    }
}

// A reading: what a reader hands over until its position is the end.
#[derive(Drop)]
pub struct Reading<'a> {
    pub reader: Reader<'a>,
    pub end: usize,
}

impl<'a> Iterator for Reading<'a> {
    type Item = Item;

    ghost can_next = { λ r. Whole r.reader.plan.now × (r.end ≤ item_count r.reader.plan.now) };

    ghost next_gives = { λ r o s. MatchOption o ((r.end ≤ r.reader.at) × (s ≡ r))
        (λ x. (r.reader.at < r.end) × (x ≡ item_of r.reader.plan.now r.reader.at)
        × (s ≡ record { reader = advanced r.reader; end = r.end })) };

    ghost remaining = { λ r. at_most (r.end - r.reader.at) };

    fn next(&mut self) -> Option<Item> {
        if self.end <= self.reader.at {
            return None;
        }
        Some(self.reader.next())
    }
}
