// The flags of a plan or a state, as eight bytes by value.
#![tactic(auto)]

ghost use Rattle.std.specs.Prelude.{◌≡◌, ◌++◌, ◌<◌, ◌≤◌, length, take, drop, replicate};
ghost use Rattle.run_flags.specs.Flags.{flag_in};
ghost use Rattle.run_flags.specs.Inner.{with_flag, byte_with, all_byte};

#[derive(Clone, Copy)]
pub struct Flags {
    pub bytes: [u8; 8],
}

// The byte x with bit k made the sign.
fn byte_with(x: u8, k: usize, sign: bool) -> u8
    requires { k < 8 }
    ensures { result ≡ byte_with x k sign }
{
    let mask = 1u8 << k;
    if sign {
        x | mask
    } else if (x >> k) % 2 == 1 {
        x ^ mask
    } else {
        x
    }
}

impl Flags {
    // Every flag at the sign.
    pub fn all(sign: bool) -> Flags
        ensures { result.bytes ≡ replicate 8 (all_byte sign) }
    {
        Flags {
            bytes: [if sign { 255 } else { 0 }; 8],
        }
    }

    pub fn has(self, f: usize) -> bool
        requires { f < 64 }
        ensures { result ≡ flag_in self.bytes f }
    {
        (self.bytes[f / 8] >> (f % 8)) % 2 == 1
    }

    // The flags with the literal made true: flag f at the sign.
    pub fn with(self, f: usize, sign: bool) -> Flags
        requires { f < 64 }
        ensures { result.bytes ≡ with_flag self.bytes f sign }
    {
        let at = f / 8;
        let mut next = self;
        next.bytes[at] = byte_with(next.bytes[at], f % 8, sign);
        next
    }
}

// The first eight bytes of a state.
pub fn load(state: &[u8]) -> Flags
    requires { 8 ≤ length state.now }
    ensures { result.bytes ≡ take 8 state.now }
{
    let mut bytes = [0; 8];
    bytes.copy_from_slice(&state[..8]);
    Flags { bytes }
}

pub fn store(state: &mut [u8], flags: Flags)
    requires { 8 ≤ length state.old }
    ensures { state.new ≡ flags.bytes ++ drop 8 state.old }
{
    state[..8].copy_from_slice(&flags.bytes);
}
