// Every refusal of documents 01 and 02, and its number.
#![tactic(auto)]

ghost use Rattle.std.specs.Prelude.{◌≡◌};
ghost use Rattle.refusal.specs.Refusal.{number_of};
ghost use Rattle.refusal.specs.declared.Refusal.TheVariants.{Input, State};

// Why an input is turned down: document 01's 1 to 12, and document 02's 30 to 34 and 39.
#[derive(Clone, Copy, Debug, PartialEq, Eq)]
pub enum InputCause {
    Malformed = 1,
    Misplaced = 2,
    CountLimit = 3,
    StateNumber = 4,
    LetterLimit = 5,
    StateOrder = 6,
    SourceOrder = 7,
    ArcRepeated = 8,
    LineCount = 9,
    WordFault = 10,
    TaskFault = 11,
    IdleCycle = 12,
    ListedWord = 30,
    WordOrder = 31,
    StateLimit = 32,
    SheetFault = 33,
    ClassFault = 34,
    CeilingLimit = 39,
}

// Why a state is turned down, document 01's 20 to 24.
#[derive(Clone, Copy, Debug, PartialEq, Eq)]
pub enum StateCause {
    LoadedTable = 20,
    Place = 21,
    StackFull = 22,
    OutputFull = 23,
    DestinationShort = 24,
}

#[derive(Clone, Copy, Debug, PartialEq, Eq)]
pub enum Refusal {
    Input(InputCause),
    State(StateCause),
}

impl From<InputCause> for Refusal {
    ghost from_gives = { λ cause refusal. refusal ≡ Input cause };

    fn from(cause: InputCause) -> Self {
        Refusal::Input(cause)
    }
}

impl From<StateCause> for Refusal {
    ghost from_gives = { λ cause refusal. refusal ≡ State cause };

    fn from(cause: StateCause) -> Self {
        Refusal::State(cause)
    }
}

impl Refusal {
    // The number of a refusal, as it stands beside its cause above.
    pub fn number(self) -> u8
        ensures { result ≡ number_of self }
    {
        match self {
            Refusal::Input(cause) => cause as u8,
            Refusal::State(cause) => cause as u8,
        }
    }
}
