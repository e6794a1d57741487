// The protocol: paper 01 as definitions (specs/), and what follows from them (proofs/). The code above shares these types.
#![tactic(auto)]

ghost use Rattle.std.specs.Prelude.{◌≡◌};
ghost use Rattle.protocol.specs.Answers.{refusal_number};
ghost use Rattle.protocol.specs.Kinds.{Decodes};

// A setup: how many clients (C), servers (A), databases (D), and attempts for each client (N).
#[repr(C)]
#[derive(Clone, Copy, Debug, PartialEq, Eq)]
pub struct Counts {
    pub clients: u16,
    pub servers: u16,
    pub databases: u16,
    pub attempts: u16,
}

// An event record: six numbers.
#[repr(C)]
#[derive(Clone, Copy, Debug, PartialEq, Eq)]
pub struct Event {
    pub kind: u16,
    pub client: u16,
    pub attempt: u16,
    pub server: u16,
    pub database: u16,
    pub value: u16,
}

// What the phase cell of a client says.
#[derive(Clone, Copy, Debug, PartialEq, Eq)]
pub enum Phase {
    Idle,
    Waiting,
    Delivered,
    GivenUp,
}

// Why an event or a setup is refused.
#[derive(Clone, Copy, Debug, PartialEq, Eq)]
pub enum Refusal {
    WrongSize = 1,
    OutOfRange,
    UnknownKind,
    WrongField,
    PartyDown,
    NotSent,
    MustNot,
}

// The kinds of events, in the order of their numbers.
#[derive(Clone, Copy, Debug, PartialEq, Eq)]
pub enum Kind {
    Issue = 1,
    Timeout,
    RequestArrives,
    Compute,
    PrepareArrives,
    VoteArrives,
    ReadyArrives,
    Write,
    Suspect,
    Trust,
    Clean,
    DecideArrives,
    AckArrives,
    ResultArrives,
    ServerCrashes,
    DatabaseCrashes,
    ClientCrashes,
    DatabaseRecovers,
}

// The kind that has a number, as the record of an event holds it.
impl TryFrom<u16> for Kind {
    type Error = Refusal;

    ghost try_from_gives = { Decodes };

    fn try_from(number: u16) -> Result<Kind, Refusal> {
        match number {
            1 => Ok(Kind::Issue),
            2 => Ok(Kind::Timeout),
            3 => Ok(Kind::RequestArrives),
            4 => Ok(Kind::Compute),
            5 => Ok(Kind::PrepareArrives),
            6 => Ok(Kind::VoteArrives),
            7 => Ok(Kind::ReadyArrives),
            8 => Ok(Kind::Write),
            9 => Ok(Kind::Suspect),
            10 => Ok(Kind::Trust),
            11 => Ok(Kind::Clean),
            12 => Ok(Kind::DecideArrives),
            13 => Ok(Kind::AckArrives),
            14 => Ok(Kind::ResultArrives),
            15 => Ok(Kind::ServerCrashes),
            16 => Ok(Kind::DatabaseCrashes),
            17 => Ok(Kind::ClientCrashes),
            18 => Ok(Kind::DatabaseRecovers),
            0 | 19..=65535 => Err(Refusal::UnknownKind),
        }
    }
}

// What the engine answers: accepted, or why not.
pub type Answer = Result<(), Refusal>;

// The paper's number of a refusal.
impl From<Refusal> for u16 {
    ghost from_gives = { λ refusal number. number ≡ refusal_number refusal };

    fn from(refusal: Refusal) -> u16 {
        refusal as u16
    }
}
