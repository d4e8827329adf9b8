// The value of a condition, told apart by its range.
ghost use Rattle.std.specs.Prelude.{◌≡◌, ◌≤◌};
ghost use Rattle.plan_codes.specs.Values.{place_of, sign_of, flag_of, value_bad};
ghost use Rattle.plan_codes.specs.Cases.{parsed_of, place_num, sign_num};

// 01: need, hold, leaving
#[derive(Clone, Copy, Debug, PartialEq, Eq)]
pub enum Place {
    Pre,
    Inc,
    Post,
}

#[derive(Clone, Copy, Debug, PartialEq, Eq)]
pub enum Sign {
    Clear,
    Set,
}

#[derive(Clone, Copy)]
pub struct Condition {
    pub place: Place,
    pub sign: Sign,
    pub flag: u16,
}

// 01's numbers of the cases.
impl From<Place> for u16 {
    ghost from_gives = { λ p n. n ≡ place_num p };

    fn from(place: Place) -> u16 {
        place as u16
    }
}

impl From<Sign> for u16 {
    ghost from_gives = { λ s n. n ≡ sign_num s };

    fn from(sign: Sign) -> u16 {
        sign as u16
    }
}

pub fn parse(v: u16) -> Option<Condition>
    ensures { result ≡ parsed_of v }
{
    let (place, sign, flag) = match v {
        0..=63 => (Place::Pre, Sign::Clear, v),
        64..=127 => (Place::Pre, Sign::Set, v - 64),
        128..=191 => (Place::Inc, Sign::Clear, v - 128),
        192..=255 => (Place::Inc, Sign::Set, v - 192),
        256..=319 => (Place::Post, Sign::Clear, v - 256),
        320..=383 => (Place::Post, Sign::Set, v - 320),
        _ => return None,
    };
    Some(Condition { place, sign, flag })
}

// The parts of a value that is not refused.
pub fn place_of(v: u16) -> u16
    requires { v ≤ 383 }
    ensures { result ≡ place_of v }
{
    parse(v).map_or(0, |c| u16::from(c.place))
}

pub fn sign_of(v: u16) -> u16
    requires { v ≤ 383 }
    ensures { result ≡ sign_of v }
{
    parse(v).map_or(0, |c| u16::from(c.sign))
}

pub fn flag_of(v: u16) -> u16
    requires { v ≤ 383 }
    ensures { result ≡ flag_of v }
{
    parse(v).map_or(0, |c| c.flag)
}

// The value is over 383, or its flag is none of the plan's.
pub fn value_bad(v: u16, flags: usize) -> bool
    ensures { result ≡ value_bad v flags }
{
    parse(v).is_none_or(|c| flags <= usize::from(c.flag))
}
