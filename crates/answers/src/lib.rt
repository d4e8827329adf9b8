// Why a call is refused.
#![tactic(auto)]

ghost use Rattle.std.specs.Prelude.{◌≡◌};
ghost use Rattle.answers.specs.Refusals.{number};

// The causes, in the order of their numbers: 1 to 14 of a plan, then those of the calls.
#[derive(Clone, Copy, Debug, PartialEq, Eq)]
pub enum Refusal {
    TooShort = 1,
    BadSizes,
    WrongLength,
    BadStart,
    BadName,
    BadEntry,
    BadParent,
    Childless,
    BadCondition,
    ConditionsFall,
    BothSigns,
    NoPostcondition,
    BadOrder,
    OrdersFall,
    NoRoom,
    Malformed,
    NoSuchNode,
    WrongStatus,
    OtherBranch,
    OrderOpen,
    Unmet,
    Broken,
    UnfitRoot,
    NoSequence,
    TasksFall,
    Opposed,
    NotOptional,
    BadBlocked,
    NoBranch,
    BadRecipe,
    NoMember,
    SameMembers,
    MergedSizes,
    StartsApart,
}

// The number of a cause.
impl From<Refusal> for u32 {
    ghost from_gives = { λ r n. n ≡ number r };

    fn from(refusal: Refusal) -> u32 {
        refusal as u32
    }
}
