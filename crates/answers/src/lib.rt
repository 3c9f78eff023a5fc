// What a call answers where it is not done.
#![tactic(auto)]

ghost use Rattle.std.specs.Prelude.{◌≡◌};
ghost use Rattle.answers.specs.Refusals.{number_of};

// Why a call or a file is refused. Each has its number in RULES, "What the calls answer" and "Plan
// file"; `TwoClaims` is of the rescue, which is not finished.
#[derive(Clone, Copy, Debug, PartialEq, Eq)]
pub enum Refusal {
    NotHeld = 1,
    Unsound = 2,
    WrongArea = 3,
    NoSuchDevice = 4,
    NoSuchIdentifier = 5,
    NotItsOwn = 6,
    NothingRuns = 7,
    NotPermitted = 8,
    BitStands = 9,
    LinkStands = 10,
    TooManyRounds = 11,
    StillWaits = 12,
    NotAcknowledged = 13,
    NotTheMaster = 14,
    WrongLength = 20,
    WrongCheck = 21,
    WrongKind = 22,
    WrongField = 23,
    NotZero = 24,
    WrongCount = 25,
    WrongConnection = 26,
    TwoSources = 27,
    TwoClaims = 28,
}

// The refusal's number, for C and for texts.
impl From<Refusal> for u32 {
    ghost from_gives = { λ refusal number. number ≡ number_of refusal };

    fn from(refusal: Refusal) -> u32 {
        refusal as u32
    }
}
