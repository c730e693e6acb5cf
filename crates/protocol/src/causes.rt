// Why a call is refused: document 01, "Refused calls", and document 02. specs/CauseNumbers.antt gives each its number.
ghost use Rattle.std.specs.Prelude.{◌≡◌};
ghost use Rattle.protocol.specs.CauseNumbers.{number_of};

#[derive(Clone, Copy, Debug, PartialEq, Eq)]
pub enum Cause {
    NotATransaction,
    AlreadyOpen,
    NotOpen,
    NotOfGrammar,
    ContentOverLimit,
    NodesOverLimit,
    NoSuchNode,
    KindNotAllowed,
    ContentNotAllowed,
    HeldNumber,
    PlaceNotAllowed,
    NoMoreNodes,
    ShortBuffer,
    NotExpressible,
    OpenAtLoad,
    Deadlock,
    NoMoreCommits,
    PartNotAllowed,
}

// The papers' numbers. No call is refused for 16.
impl From<Cause> for u8 {
    ghost from_gives = { λ cause n. n ≡ number_of cause };

    fn from(cause: Cause) -> u8 {
        match cause {
            Cause::NotATransaction => 1,
            Cause::AlreadyOpen => 2,
            Cause::NotOpen => 3,
            Cause::NotOfGrammar => 4,
            Cause::ContentOverLimit => 5,
            Cause::NodesOverLimit => 6,
            Cause::NoSuchNode => 7,
            Cause::KindNotAllowed => 8,
            Cause::ContentNotAllowed => 9,
            Cause::HeldNumber => 10,
            Cause::PlaceNotAllowed => 11,
            Cause::NoMoreNodes => 12,
            Cause::ShortBuffer => 13,
            Cause::NotExpressible => 14,
            Cause::OpenAtLoad => 15,
            Cause::Deadlock => 17,
            Cause::NoMoreCommits => 18,
            Cause::PartNotAllowed => 19,
        }
    }
}
