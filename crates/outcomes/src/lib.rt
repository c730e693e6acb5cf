// What an exported call answered, read from its number of 64 bits, and how the programs print it.
#![tactic(auto)]

ghost use Rattle.std.specs.Prelude.{◌≡◌, Some};
ghost use Rattle.outcomes.specs.Told.{IsPacked, packed_as, shown, is_of_input, offset_of};

use protocol::causes::Cause;
use std::fmt;

#[derive(Clone, Copy, Debug, PartialEq, Eq)]
pub enum Outcome {
    // T and C answer a kind too, the others 0
    Granted { number: u32, kind: u16 },
    // the set of the transactions that the call waits for
    Waits(u64),
    // the cause by its number, which is what is printed; a refusal of load has an offset, the others 0
    Refused { cause: u8, offset: u64 },
}

impl Outcome {
    // The byte offset of what load refused an input for.
    pub fn offset(self) -> Option<u64>
        ensures { result ≡ offset_of self }
    {
        match self {
            Outcome::Refused { cause, offset } if is_of_input(cause) => Some(offset),
            _ => None,
        }
    }
}

impl From<u64> for Outcome {
    ghost from_gives = { λ code o. IsPacked code → packed_as o ≡ code };

    fn from(code: u64) -> Outcome {
        let value = code / 65536;
        match code % 256 {
            0 => Outcome::Granted {
                number: (value % 4294967296) as u32,
                kind: (value / 4294967296) as u16,
            },
            1 => Outcome::Waits(value),
            _ => Outcome::Refused {
                cause: (code / 256 % 256) as u8,
                offset: value,
            },
        }
    }
}

// G (granted), W (waits) or R (refused), and the number, the set or the cause.
impl fmt::Display for Outcome {
    ghost output = { λ o. Some (shown o) };

    fn fmt<W: fmt::Write>(&self, f: &mut fmt::Formatter<W>) -> fmt::Result {
        match *self {
            Outcome::Granted { number, .. } => write!(f, "G {number}"),
            Outcome::Waits(set) => write!(f, "W {set}"),
            Outcome::Refused { cause, .. } => write!(f, "R {cause}"),
        }
    }
}

// Whether load gives this cause for a byte of its input.
fn is_of_input(cause: u8) -> bool
    ensures { result ≡ is_of_input cause }
{
    (u8::from(Cause::NotOfGrammar)..=u8::from(Cause::NodesOverLimit)).contains(&cause)
}
