// Why a call refuses. A call that serves answers Ok, of the count of bytes that it writes where it writes any; C programs get the number alone.
ghost use Rattle.std.specs.Prelude.{◌≡◌, cond};
ghost use Rattle.fox_refusals.specs.Answer.{number_of, number_in};

#[derive(Clone, Copy, Debug, PartialEq, Eq, Hash)]
pub enum Refusal {
    WrongCipher = 1,
    WrongRounds = 2,
    LongKey = 3,
    WrongBlockLength = 4,
    LongData = 5,
    WrongOutputLength = 6,
    PastEnd = 7,
    BrokenSheet = 8,
    WrongTagLength = 9,
    OtherTag = 10,
    BrokenHeader = 11,
    BrokenRest = 12,
    ShortKey = 13,
}

impl Refusal {
    pub fn number(self) -> u32
        ensures { result ≡ number_of self }
    {
        self as u32
    }
}

impl From<Refusal> for u32 {
    fn from(refusal: Refusal) -> u32
        ensures { result ≡ number_of refusal }
    {
        refusal.number()
    }
}

// The number that C programs get: 0 where the call serves.
pub fn number_in<T: Drop>(answer: Result<T, Refusal>) -> u32
    ensures { result ≡ number_in answer }
{
    match answer {
        Ok(_) => 0,
        Err(refusal) => refusal.number(),
    }
}

// One test of a call. Calls take their tests in order, so that one with several faults is answered by the first.
pub fn refuse(applies: bool, refusal: Refusal) -> Result<(), Refusal>
    ensures { number_in result ≡ cond applies (number_of refusal) 0 }
{
    if applies {
        return Err(refusal);
    }
    Ok(())
}
