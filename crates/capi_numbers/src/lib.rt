// The numbers by which the C interface tells answers.
#![tactic(auto)]

ghost use Rattle.std.specs.Prelude.{◌≡◌, MatchResult, ⊤};
ghost use Rattle.std.proofs.Common.{inr};
ghost use Rattle.answers.specs.Refusals.{returned};
ghost use Rattle.verdict.specs.Verdict as verdict;
ghost use Rattle.run_monitor.specs.Status as progress;
ghost use Rattle.capi_numbers.specs.Numbers.{verdict_number, status_number, written_number};
ghost use Rattle.capi_numbers.specs.Inner.{Short};

use answers::Refusal;
use run_monitor::Progress;
use verdict::Verdict;

// 0, or the number of the refusal.
pub fn refusal_number(answer: Result<(), Refusal>) -> u32
    ensures { result ≡ returned answer }
{
    match answer {
        Ok(()) => 0,
        Err(refusal) => u32::from(refusal),
    }
}

// The number of a verdict or of a refusal, of which any type will do that tells its number.
pub fn verdict_number<E: Into<u32>>(answer: Result<Verdict, E>) -> u32
    ensures { MatchResult answer (λ v. result ≡ verdict_number (inr (verdict.word_of v)))
        (λ e. E.converts e result) }
{
    match answer {
        Ok(Verdict::Clear) => 128,
        Ok(Verdict::Doomed) => 129,
        Ok(Verdict::Open) => 130,
        Err(cause) => cause.into(),
    }
}

pub fn status_number<E: Into<u32>>(answer: Result<Progress, E>) -> u32
    ensures { MatchResult answer (λ p. result ≡ status_number (inr (progress.word_of p)))
        (λ e. E.converts e result) }
{
    match answer {
        Ok(Progress::Complete) => 128,
        Ok(Progress::Unfinished) => 129,
        Err(refusal) => refusal.into(),
    }
}

pub fn written_number<E: Into<u32>>(answer: Result<usize, E>) -> u32
    requires { MatchResult answer (λ n. Short (inr n)) (λ _. ⊤) }
    ensures { MatchResult answer (λ n. result ≡ written_number (inr n)) (λ e. E.converts e result) }
{
    match answer {
        Ok(length) => 256 + length as u32,
        Err(refusal) => refusal.into(),
    }
}

pub fn sequence_number<E: Into<u32>>(answer: Result<u64, E>) -> u64
    ensures { MatchResult answer (λ w. result ≡ w) (λ e. E.converts e result) }
{
    match answer {
        Ok(word) => word,
        Err(refusal) => u64::from(refusal.into()),
    }
}
