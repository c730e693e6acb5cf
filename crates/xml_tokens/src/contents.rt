// Values and texts, judged character by character: a byte that stands for itself, or a reference.
ghost use Rattle.std.specs.Prelude.{◌≡◌, false, ◌≤◌, ◌<◌, length, get_or};
ghost use Rattle.tree.specs.Content.{content_limit};
ghost use Rattle.xml.specs.Reading.{node_offset};
ghost use Rattle.xml_tokens.specs.Classes.{alone};
ghost use Rattle.xml_tokens.specs.Steps.{SpecialRead, CharactersRead, TextRead};

use super::{Cursor, Piece, Read, Refusal, classes};
use protocol::Cause;

impl Cursor {
    // A reference, or bytes from 128 on as far as they go, behind count bytes of the content.
    fn special(self, s: &[u8], count: usize) -> Result<Piece, Refusal>
        requires { (self.at < length s.now) × (count ≤ content_limit) × (alone (get_or s.now self.at 0) ≡ false) }
        ensures { SpecialRead s.now self.at count result }
    {
        let at = self.at;
        if s[at] >= 128 {
            let end = self.letters(s);
            return self.fit(s, end.at, true, count);
        }
        if count == 32 {
            return Err(Refusal::new(Cause::ContentOverLimit, at));
        }
        let next = Cursor { at: at + 1 };
        let reference = next.reference(s)?;
        Ok(Piece {
            behind: reference.behind,
            length: count + 1,
        })
    }

    // The characters of a value or a text, from the first on, up to the byte that ends it; spare nodes may still come.
    // A while: a reference, and bytes from 128 on, take several bytes in one turn.
    // Apart from decode of xml_filling: one loop for both takes a third longer in filling.
    fn characters(self, s: &[u8], stop: u8, spare: usize) -> Result<Read, Refusal>
        requires { self.at ≤ length s.now }
        ensures { CharactersRead s.now stop self.at spare result }
    {
        let mut i = self.at;
        let mut count: usize = 0;
        let mut k: usize = 0;
        while i < s.len() {
            let b = s[i];
            if b == stop {
                let behind = Cursor { at: i + 1 };
                return Ok(Read { behind, spare });
            }
            if !classes::may_stand(b, stop, k) {
                return Err(Refusal::new(Cause::NotOfGrammar, i));
            }
            if classes::alone(b) {
                if count == 32 {
                    return Err(Refusal::new(Cause::ContentOverLimit, i));
                }
                i += 1;
                count += 1;
                k = classes::brackets_after(k, b);
                continue;
            }
            let here = Cursor { at: i };
            let piece = here.special(s, count)?;
            i = piece.behind.at;
            count = piece.length;
            k = 0;
        }
        Err(Refusal::new(Cause::NotOfGrammar, i))
    }

    // A value or a text, which may be empty, up to the byte that ends it; begin is the offset of its node.
    pub fn text(self, s: &[u8], stop: u8, begin: usize, spare: usize) -> Result<Read, Refusal>
        requires { (self.at ≤ length s.now) × (begin ≡ node_offset s.now self.at) }
        ensures { TextRead s.now stop self.at spare result }
    {
        let at = self.at;
        if at >= s.len() {
            return Err(Refusal::new(Cause::NotOfGrammar, at));
        }
        let b = s[at];
        if b == stop {
            let behind = Cursor { at: at + 1 };
            return Ok(Read { behind, spare });
        }
        if !classes::may_stand(b, stop, 0) || !tree::characters::begins(b, true) {
            return Err(Refusal::new(Cause::NotOfGrammar, at));
        }
        if spare == 0 {
            return Err(Refusal::new(Cause::NodesOverLimit, begin));
        }
        self.characters(s, stop, spare - 1)
    }
}
