// Questions that are asked in sequence, and the first that refuses a call.
#![tactic(auto)]

ghost use Rattle.std.specs.Prelude.{◌≡◌};
ghost use Rattle.base_questions.specs.Refusals.{number_of, refused};

// The question that refuses a call, by what it asks for. Documents 01 and 02 number them in this sequence, from 1.
#[derive(Clone, Copy, PartialEq, Eq, Debug)]
pub enum Refusal {
    MachineLength,
    MachineWords,
    BuiltCommand,
    TicksNumber,
    OrderLength,
    OrderNumbers,
    ReadItems,
    WrittenPlaces,
    BenchFile,
    DelayMemory,
    DelayLines,
    DelayUnits,
    KnownText,
    ChainEntries,
    ChainNumbers,
    JoinedTicks,
    JoinedAlone,
    JoinedApart,
}

impl From<Refusal> for u32 {
    ghost from_gives = { λ refusal n. n ≡ number_of refusal };

    // The question's number.
    fn from(refusal: Refusal) -> u32 {
        match refusal {
            Refusal::MachineLength => 1,
            Refusal::MachineWords => 2,
            Refusal::BuiltCommand => 3,
            Refusal::TicksNumber => 4,
            Refusal::OrderLength => 5,
            Refusal::OrderNumbers => 6,
            Refusal::ReadItems => 7,
            Refusal::WrittenPlaces => 8,
            Refusal::BenchFile => 9,
            Refusal::DelayMemory => 10,
            Refusal::DelayLines => 11,
            Refusal::DelayUnits => 12,
            Refusal::KnownText => 13,
            Refusal::ChainEntries => 14,
            Refusal::ChainNumbers => 15,
            Refusal::JoinedTicks => 16,
            Refusal::JoinedAlone => 17,
            Refusal::JoinedApart => 18,
        }
    }
}

// The number that a host in C is told: that of the refusing question, or 0.
pub fn number(answer: Result<(), Refusal>) -> u32
    ensures { result ≡ refused answer }
{
    match answer {
        Ok(()) => 0,
        Err(refusal) => u32::from(refusal),
    }
}
