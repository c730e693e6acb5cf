// What a call answers, and the number of 64 bits that stands for it.
#![tactic(auto)]

ghost use Rattle.std.specs.Prelude.{◌≡◌};
ghost use Rattle.protocol.specs.declared.Answer.TheVariants.{Refused};
ghost use Rattle.protocol.specs.Answers.{code_of};
ghost use Rattle.protocol.specs.CauseNumbers.{number_of};

pub mod causes;
pub mod sets;

pub use causes::Cause;

// The outcomes of the calls.
// Kinds and causes are the papers' numbers, as the number of 64 bits has them (code_of in specs/Answers.antt).
#[derive(Clone, Copy)]
pub enum Answer {
    // start, begin, commit, abort, U, D and I granted
    Done,
    // T granted
    Node { kind: u8, parent: u32 },
    // C granted, and there is such a child
    Child { kind: u8, number: u32 },
    // C granted, and there is none
    NoChild,
    // granted: R with the length, TT and RR with the count of nodes, UU with how many, load with the node count, write with the length,
    // count_of with the count of a commit
    Count(u32),
    // a wait, with the set
    Waits(u16),
    // a refusal, with its cause
    Refused(u8),
    // a refusal of load, with its cause and the byte offset
    RefusedAt(u8, u32),
}

impl From<Cause> for Answer {
    ghost from_gives = { λ cause answer. answer ≡ Refused (number_of cause) };

    fn from(cause: Cause) -> Answer {
        Answer::Refused(u8::from(cause))
    }
}

// The number that the panel gets.
pub fn code(a: Answer) -> u64
    ensures { result ≡ code_of a }
{
    match a {
        Answer::Done => 0,
        Answer::Node { kind, parent } => 65536 * ((parent as u64) + 4294967296 * (kind as u64)),
        Answer::Child { kind, number } => 65536 * ((number as u64) + 4294967296 * (kind as u64)),
        Answer::NoChild => 0,
        Answer::Count(n) => 65536 * (n as u64),
        Answer::Waits(set) => 1 + 65536 * (set as u64),
        Answer::Refused(cause) => 2 + 256 * (cause as u64),
        Answer::RefusedAt(cause, offset) => 2 + 256 * (cause as u64) + 65536 * (offset as u64),
    }
}
