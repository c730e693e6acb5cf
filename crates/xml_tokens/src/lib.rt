// The tokens of an input: a cursor by value, whose methods hand back the token and the place behind it. Judging an input and filling a
// table with its nodes go over the same tokens, but for the bytes of values and texts that stand for themselves, and for the name in an
// end tag, which is compared when judging alone.
#![tactic(auto)]

mod classes;
mod contents;
mod letters;
mod tags;
mod tokens;

ghost use Rattle.std.specs.Prelude.{◌≡◌, get_or};
ghost use Rattle.xml.specs.Bytes.{blank};
ghost use Rattle.protocol.specs.declared.causes.Cause.TheVariants.{NotOfGrammar};
ghost use Rattle.xml_tokens.specs.Values.{refusal};

use protocol::Cause;

#[derive(Clone, Copy)]
pub struct Cursor {
    pub at: usize,
}

// Why an input is refused, and the byte offset that is named with it.
#[derive(Clone, Copy, Debug, PartialEq, Eq)]
pub struct Refusal {
    pub cause: Cause,
    pub offset: usize,
}

impl Refusal {
    pub fn new(cause: Cause, offset: usize) -> Refusal
        ensures { result ≡ refusal cause offset }
    {
        Refusal { cause, offset }
    }
}

// The offset from which on the input is not of the grammar.
#[derive(Clone, Copy, Debug, PartialEq, Eq)]
pub struct Mismatch {
    pub offset: usize,
}

impl From<Mismatch> for Refusal {
    ghost from_gives = { λ m r. r ≡ refusal NotOfGrammar m.offset };

    fn from(m: Mismatch) -> Refusal {
        Refusal::new(Cause::NotOfGrammar, m.offset)
    }
}

// The byte that a reference stands for.
#[derive(Clone, Copy)]
pub struct Reference {
    pub byte: u8,
    pub behind: Cursor,
}

// A part of the input, and how many nodes may still come behind it.
#[derive(Clone, Copy)]
pub struct Read {
    pub behind: Cursor,
    pub spare: usize,
}

// A part of a content, and how many bytes the content has then.
#[derive(Clone, Copy)]
pub struct Piece {
    pub behind: Cursor,
    pub length: usize,
}

// An opening quote, and where the value begins.
#[derive(Clone, Copy)]
pub struct Opening {
    pub quote: u8,
    pub value: Cursor,
}

// What comes next in a start tag: its end, of an empty-element tag too, or the name of an attribute.
#[derive(Clone, Copy)]
pub enum Item {
    Open(Cursor),
    Empty(Cursor),
    Attribute(Cursor),
}

// Behind a <: the name of a start tag, or what stands behind the slash of an end tag.
#[derive(Clone, Copy)]
pub enum Markup {
    StartTag(Cursor),
    EndTag(Cursor),
}

#[tactic(auto, unfolding(xml::specs::Bytes::blank))]
pub fn is_blank(b: u8) -> bool
    ensures { result ≡ blank b }
{
    b == b' ' || b == b'\t' || b == b'\n'
}

// The byte at an offset, 0 behind the end.
// The clause has 0 for no byte: no byte 0 is of the grammar, so one comparison does for both.
pub fn peek(s: &[u8], at: usize) -> u8
    ensures { result ≡ get_or s.now at 0 }
{
    if at < s.len() { s[at] } else { 0 }
}
