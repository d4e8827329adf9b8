// The characters that a name may have, told by their ranges.
ghost use Rattle.std.specs.Prelude.{◌≡◌};
ghost use Rattle.plan_codes.specs.Names.{name_allowed};

// Letters are first, in a match of their own: most characters are letters, and the compiler then tells them by one
// comparison.
#[tactic(auto, using(std::proofs::lemmas::Bool::Decides::nat_tests), unfolding(crate::specs::Names::name_allowed))]
pub fn allowed(c: u8) -> bool
    ensures { result ≡ name_allowed c }
{
    matches!(c, b'A'..=b'Z') || matches!(c, b'-' | b'0'..=b'9')
}
