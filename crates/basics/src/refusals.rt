// Why a call is refused, and the number by which hosts are compared.
ghost use Rattle.std.specs.Prelude.{◌≡◌};
ghost use Rattle.basics.specs.Answers.{number_of, answer};

// Annex 7.2, table 1: the refusals of every call, each with its number.
#[derive(Clone, Copy, Debug, PartialEq, Eq)]
pub enum Refusal {
    BadSlots = 1,
    BadFrame = 2,
    BadGap = 3,
    BadLast = 4,
    NotSound = 5,
    BadId = 6,
    IdTaken = 7,
    Full = 8,
    BadPeriod = 9,
    BadDeadline = 10,
    BadRelease = 11,
    BreaksDemand = 12,
    BreaksStart = 13,
    NoStream = 14,
    ShortBuffer = 16,
    LateStart = 17,
    BadPeriodOfList = 18,
    LongFrame = 19,
    Malformed = 20,
    QueueFull = 21,
    Filed = 22,
    OutOfBounds = 23,
    NotFiled = 24,
    NoEntry = 25,
    WrongLength = 26,
    BadValues = 27,
    ShortPacketBuffer = 28,
    BadMessage = 29,
    WaitingFull = 30,
}

impl From<Refusal> for u32 {
    ghost from_gives = { λ refusal number. number ≡ number_of refusal };

    fn from(refusal: Refusal) -> u32 {
        refusal as u32
    }
}

// Annex 7.2: what a call answers: 0 where nothing refuses it.
pub fn answer(outcome: Result<(), Refusal>) -> u32
    ensures { result ≡ answer outcome }
{
    match outcome {
        Ok(()) => 0,
        Err(refusal) => u32::from(refusal),
    }
}
