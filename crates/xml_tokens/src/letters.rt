// Names, and bytes from 128 on in values and texts: whether they spell characters and fit into a content.
ghost use Rattle.std.specs.Prelude.{◌≡◌, true, ◌-◌, ◌≤◌, ◌<◌, leb, length, get_or, take, drop};
ghost use Rattle.tree.specs.Content.{content_limit, name_start};
ghost use Rattle.tree.specs.Spelling.{start_of, fault_in};
ghost use Rattle.xml_tokens.specs.Classes.{ascii_name};
ghost use Rattle.xml_tokens.specs.Steps.{Run, Fits, NameRead};

use super::{Cursor, Piece, Refusal, classes, peek};
use protocol::Cause;

impl Cursor {
    // Over bytes from 128 on.
    pub fn letters(self, s: &[u8]) -> Cursor
        requires { self.at ≤ length s.now }
        ensures { Run (leb 128) s.now self.at result.at }
    {
        self.run(s, |b| b >= 128)
    }

    // Over bytes that are each a character of a name.
    fn plain_name(self, s: &[u8]) -> Cursor
        requires { self.at ≤ length s.now }
        ensures { Run ascii_name s.now self.at result.at }
    {
        self.run(s, classes::ascii_name)
    }

    // The bytes up to an offset, as a text or else a name begins, behind count bytes of the content.
    pub fn fit(self, s: &[u8], to: usize, text: bool, count: usize) -> Result<Piece, Refusal>
        requires { (self.at ≤ to) × (to ≤ length s.now) × (count ≤ content_limit) }
        ensures { Fits self.at to count (fault_in (start_of text) (take (to - self.at) (drop self.at s.now))) result }
    {
        let at = self.at;
        let room = 32 - count;
        let full = at + room;
        match tree::characters::misspelled(s, at, to, text) {
            Ok(()) if to - at <= room => Ok(Piece {
                behind: Cursor { at: to },
                length: count + (to - at),
            }),
            Err(n) if n <= room => Err(Refusal {
                cause: Cause::NotOfGrammar,
                offset: at + n,
            }),
            _ => Err(Refusal {
                cause: Cause::ContentOverLimit,
                offset: full,
            }),
        }
    }

    // A name, from its first byte on. Names of ASCII, the most frequent, are not read a second time.
    pub fn spelled_name(self, s: &[u8]) -> Result<Piece, Refusal>
        requires { (self.at < length s.now) × (name_start (get_or s.now self.at 0) ≡ true) }
        ensures { NameRead s.now self.at result }
    {
        let at = self.at;
        let behind = self.plain_name(s);
        if peek(s, behind.at) >= 128 {
            let end = behind.name(s);
            return self.fit(s, end.at, false, 0);
        }
        let length = behind.at - at;
        if length > 32 {
            return Err(Refusal::new(Cause::ContentOverLimit, at + 32));
        }
        Ok(Piece { behind, length })
    }
}
