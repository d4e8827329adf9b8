// The text of the listing of an accepted plan: its verdict and length, then its tasks by their longest waits.
#![tactic(auto)]

ghost use Rattle.std.specs.Prelude.{◌≡◌, ◌+◌, ◌≤◌, length};
ghost use Rattle.plan_rules.specs.Rules.{refusal};
ghost use Rattle.plan_check.specs.Meaning.{plan_of, start_of};
ghost use Rattle.runs.specs.Model.Verdicts as model;
ghost use Rattle.table_children.specs.Children.{TreeOf};
ghost use Rattle.verdict.specs.Verdict.{word_of};
ghost use Rattle.text_decimals.specs.Decimals.{Wrote};
ghost use Rattle.text_decimals.specs.Writes.{Writes};
ghost use Rattle.text_listing.specs.Text.{letters};
ghost use Rattle.text_listing.specs.Model.{text_of};

use node_sets::all_nodes;
use table_marks::marks_and_children;
use tables::{NODES, Nodes, STARTS, Starts};
use text_decimals::Text;
use text_lines::{end_line, write_lines};
use text_order::rank;
use verdict::{Verdict, of_words, start_word};
use wait_tree::longest_waits;

// Writes the word of a verdict.
fn write_word(text: &mut Text, verdict: Verdict)
    requires { text.old.at + 6 ≤ length text.old.out.now }
    ensures { Writes text.old (letters (word_of verdict)) text.new }
{
    match verdict {
        Verdict::Clear => text.write_bytes(b"CLEAR"),
        Verdict::Doomed => text.write_bytes(b"DOOMED"),
        Verdict::Open => text.write_bytes(b"OPEN"),
    }
}

// Writes the listing of an accepted plan, whose verdict is known, and its table of children.
fn write_text(plan: &[u8], from: &Starts, kids: &Nodes, verdict: Verdict, out: &mut [u8]) -> usize
    requires { (refusal plan.now ≡ 0) × (word_of verdict ≡ model.verdict (plan_of plan.now) (start_of plan.now))
        × (2048 ≤ length out.old) × TreeOf plan.now from.now kids.now }
    ensures { Wrote out.old 0 (text_of plan.now) result out.new }
{
    let mut waits = [0; NODES];
    let root = longest_waits(plan, from, kids, &mut waits);
    let mut ranked = [0; NODES];
    let k = rank(plan, &waits, &mut ranked);
    let mut text = Text { out, at: 0 };
    write_word(&mut text, verdict);
    end_line(&mut text, root);
    write_lines(plan, &waits, &ranked[..k], &mut text);
    text.at
}

// Writes the listing of an accepted plan: the tables are filled once, and that of the children is lent for the waits.
pub fn write_listing(plan: &[u8], out: &mut [u8]) -> usize
    requires { (refusal plan.now ≡ 0) × (2048 ≤ length out.old) }
    ensures { Wrote out.old 0 (text_of plan.now) result out.new }
{
    let standing = all_nodes();
    let mut from = [0; STARTS];
    let mut kids = [0; NODES];
    let words = marks_and_children(plan, &standing, false, &mut from, &mut kids, 0);
    let start = start_word(plan);
    let verdict = of_words(&words, start);
    write_text(plan, &from, &kids, verdict, out)
}
