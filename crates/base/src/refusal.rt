// The reasons why an operation refuses or a run stops, by the numbers of document 01, "What each operation refuses", and of document 02;
// and a refusal, which has one at a position.
ghost use Rattle.std.specs.Prelude.{◌≡◌};
ghost use Rattle.base.specs.promises.Refusals.{number_of};

#[derive(Clone, Copy, PartialEq, Eq)]
pub enum Reason {
    // Unfit arguments.
    TableTooShort = 1,
    CallLimitOutOfRange = 2,
    HeapTooLong = 3,
    StripTooShort = 4,
    RegistersNotSixteen = 62,
    // Print.
    TextTooLong = 61,
    // Join.
    LibraryRefused = 66,
    JoinedTooLong = 67,
    // Frames.
    FramesTooShort = 68,
    OtherForm = 69,
    FrameFault = 70,
    RecordUnfit = 71,
    PriceUnfit = 72,
    // Read.
    SourceTooLong = 10,
    NoToken = 11,
    CommentNotClosed = 12,
    NameTooLong = 13,
    LiteralTooLarge = 14,
    TooManyTokens = 15,
    LeadingZero = 60,
    NotThreeDigits = 65,
    NotInGrammar = 16,
    TooDeep = 17,
    // Check.
    ClassRepeated = 20,
    ParentUnknown = 21,
    ChainEndless = 22,
    FieldRepeated = 23,
    TypeUnknown = 24,
    MethodRepeated = 25,
    BadRedeclaration = 26,
    VariableRepeated = 27,
    TooManyVariables = 28,
    NameUnknown = 30,
    WrongType = 31,
    MethodUnknown = 32,
    ArgumentCount = 33,
    ThisInMain = 34,
    // Run: faults of the lesson, and limits.
    NullReference = 40,
    IndexOutOfRange = 41,
    NegativeSize = 42,
    RegisterOutOfRange = 63,
    ValueOutOfRange = 64,
    BudgetSpent = 50,
    HeapFull = 51,
    CallsFull = 52,
    OutputFull = 53,
    // The refusal of a branch that cannot happen: no number of the documents.
    Broken = 99,
}

impl From<Reason> for u32 {
    ghost from_gives = { λ reason number. number ≡ number_of reason };

    fn from(reason: Reason) -> u32 {
        reason as u32
    }
}

// A refusal: why, and at which position.
#[derive(Clone, Copy, PartialEq, Eq)]
pub struct Refusal {
    pub reason: Reason,
    pub position: usize,
}

impl Refusal {
    // Its number.
    pub fn number(self) -> u32
        ensures { result ≡ number_of self.reason }
    {
        u32::from(self.reason)
    }
}
