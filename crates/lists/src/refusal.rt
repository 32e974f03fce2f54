// Why a call is refused. Each refusal has its number in document 01, by which C and the files know it; the lower number comes first.
ghost use Rattle.std.specs.Prelude.{◌≡◌};
ghost use Rattle.lists.specs.Calls.{lower as lower_of};
ghost use Rattle.lists.specs.Refusals.{number_of, numbered};

#[derive(Clone, Copy, Debug, PartialEq, Eq)]
pub enum Refusal {
    // a dimension or an entry count over its maximum
    TooLarge = 1,
    // slice lengths or dimensions disagree, or not square where needed
    Disagree = 2,
    // pointers not valid
    BadPointers = 3,
    // a row or column number too large
    OutOfRange = 4,
    // rows not strictly rising
    NotRising = 5,
    // a scratch slice too short
    NoScratch = 6,
    // an output too short, or too many entries needed
    NoRoom = 7,
    // a lent analysis that is not this pattern's own
    WrongAnalysis = 8,
    // a stored row that L has no place for, or a place given twice
    Misplaced = 9,
    // a diagonal that is absent or zero
    NoDiagonal = 10,
    // a pivot that is not above zero, or is NaN
    BadPivot = 11,
    // a job file badly formed
    Malformed = 12,
}

impl Refusal {
    // The number in document 01.
    pub fn number(self) -> u32
        ensures { result ≡ number_of self }
    {
        self as u32
    }
}

// The number that an answer has: 0 where nothing is refused.
pub fn number(answer: Result<(), Refusal>) -> u32
    ensures { result ≡ numbered answer }
{
    match answer {
        Ok(()) => 0,
        Err(refusal) => refusal.number(),
    }
}

// Of two answers the one that refuses, and of two refusals the lower.
pub fn lower(a: Result<(), Refusal>, b: Result<(), Refusal>) -> Result<(), Refusal>
    ensures { numbered result ≡ lower_of (numbered a) (numbered b) }
{
    let (Err(x), Err(y)) = (a, b) else {
        return a.and(b);
    };
    if x.number() < y.number() { a } else { b }
}
