// Blanks, names and references.
ghost use Rattle.std.specs.Prelude.{◌≡◌, ◌≤◌, ℕ, Bool, length, get_or, drop};
ghost use Rattle.tree.specs.Content.{name_byte};
ghost use Rattle.xml.specs.Bytes.{blank};
ghost use Rattle.xml.specs.Laws.Fixed.{word_at, reference_at};
ghost use Rattle.xml_tokens.specs.Values.{Computes};
ghost use Rattle.xml_tokens.specs.Steps.{Run, ByteRead, Refers};

use super::{Cursor, Mismatch, Reference, is_blank, peek};

impl Cursor {
    // Over bytes of a class.
    pub fn run<F: Fn(u8) -> bool>(self, s: &[u8], class: F) -> Cursor
        requires inside { self.at ≤ length s.now }
        requires callable { F.IsAlwaysCallable class }
        ensures { (t : ℕ → Bool) → Computes (F.post class) t → Run t s.now self.at result.at }
    {
        for i in self.at..s.len() {
            if !class(s[i]) {
                return Cursor { at: i };
            }
        }
        Cursor { at: s.len() }
    }

    pub fn blanks(self, s: &[u8]) -> Cursor
        requires { self.at ≤ length s.now }
        ensures { Run blank s.now self.at result.at }
    {
        self.run(s, is_blank)
    }

    // Over the bytes of a name.
    pub fn name(self, s: &[u8]) -> Cursor
        requires { self.at ≤ length s.now }
        ensures { Run name_byte s.now self.at result.at }
    {
        self.run(s, tree::name_byte)
    }

    // Over one byte, which has to be this one.
    pub fn over(self, s: &[u8], byte: u8) -> Result<Cursor, Mismatch>
        ensures { ByteRead s.now self.at byte result }
    {
        let at = self.at;
        match s.get(at) {
            Some(b) if *b == byte => Ok(Cursor { at: at + 1 }),
            _ => Err(Mismatch { offset: at }),
        }
    }

    // One reference, compared whole.
    fn word(self, s: &[u8], word: &[u8], byte: u8) -> Result<Reference, Mismatch>
        requires { self.at ≤ length s.now }
        ensures { Refers s.now self.at (word_at word.now byte (drop self.at s.now)) result }
    {
        let n = byte_strings::agreement(s, self.at, word);
        let behind = Cursor { at: self.at + n };
        if n == word.len() {
            return Ok(Reference { byte, behind });
        }
        Err(Mismatch { offset: behind.at })
    }

    // A reference, behind its ampersand; its first two bytes tell which it can be.
    pub fn reference(self, s: &[u8]) -> Result<Reference, Mismatch>
        requires { self.at ≤ length s.now }
        ensures { Refers s.now self.at (reference_at (drop self.at s.now)) result }
    {
        let first = peek(s, self.at);
        let second = peek(s, self.at + 1);
        match (first, second) {
            (b'a', b'm') => self.word(s, &xml::AMP[1..], b'&'),
            (b'a', _) => self.word(s, &xml::APOS[1..], b'\''),
            (b'g', _) => self.word(s, &xml::GT[1..], b'>'),
            (b'l', _) => self.word(s, &xml::LT[1..], b'<'),
            (b'#', b'1') => self.word(s, &xml::LINE_FEED[1..], b'\n'),
            (b'#', _) => self.word(s, &xml::TAB[1..], b'\t'),
            _ => self.word(s, &xml::QUOT[1..], b'"'),
        }
    }
}
