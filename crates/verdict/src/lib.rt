// The answer for a plan with a list of blocked nodes.
#![tactic(auto)]

ghost use Rattle.std.specs.Prelude.{◌≡◌};
ghost use Rattle.plan_rules.specs.Rules.{refusal};
ghost use Rattle.plan_check.specs.Meaning.{start_of};
ghost use Rattle.marks_words.specs.Words.{StartWord};
ghost use Rattle.verdict.specs.Verdict.{Assessed};
ghost use Rattle.verdict.specs.Inner.{OfWords, OfStanding};

use answers::Refusal;
use marks_words::marks::{MAY_CLOBBER, MAY_PRE, MUST_CLOBBER, MUST_PRE};
use marks_words::{Marks, failing};
use node_sets::all_nodes;
use plan_blocked::check_blocked;
use plan_format::fields::{flags, start_flag};
use table_marks::node_marks;
use tables::Nodes;

#[derive(Clone, Copy, Debug, PartialEq, Eq)]
pub enum Verdict {
    Clear,
    Doomed,
    Open,
}

// The flags that are set at the start, as a word.
pub fn start_word(plan: &[u8]) -> u64
    requires { refusal plan.now ≡ 0 }
    ensures { StartWord (start_of plan.now) result }
{
    let mut word = 0;
    for f in 0..flags(plan) {
        if start_flag(plan, f) {
            word |= 1u64 << f;
        }
    }
    word
}

// The verdict of any plan whose root has these marks.
pub fn of_words(words: &Marks, start: u64) -> Verdict
    ensures { OfWords words.now start result }
{
    if failing(words, start, MAY_CLOBBER, MAY_PRE) == 0 {
        return Verdict::Clear;
    }
    if failing(words, start, MUST_CLOBBER, MUST_PRE) != 0 {
        return Verdict::Doomed;
    }
    Verdict::Open
}

// The verdict on an accepted plan of which the marked nodes stand.
fn judge(plan: &[u8], standing: &Nodes) -> Verdict
    requires { refusal plan.now ≡ 0 }
    ensures { OfStanding plan.now standing.now result }
{
    let words = node_marks(plan, standing, 0);
    let start = start_word(plan);
    of_words(&words, start)
}

// Refuses plan or list (1 to 14, 28, 29), or answers with the verdict on what is left of the plan without the blocked
// nodes.
pub fn assess(plan: &[u8], blocked: &[usize]) -> Result<Verdict, Refusal>
    ensures { Assessed plan.now blocked.now result }
{
    let mut standing = all_nodes();
    check_blocked(plan, blocked, &mut standing)?;
    Ok(judge(plan, &standing))
}
