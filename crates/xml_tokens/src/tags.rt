// Tokens of tags.
ghost use Rattle.std.specs.Prelude.{◌≡◌, ◌<◌, ◌≤◌, length, get_or};
ghost use Rattle.xml_tokens.specs.Steps.{EqualsRead, ItemRead, SlashRead, MarkupRead, CloseRead};

use super::{Cursor, Item, Markup, Mismatch, Opening};

impl Cursor {
    // Behind a <: which tag it is.
    pub fn markup(self, s: &[u8]) -> Result<Markup, Mismatch>
        requires { self.at ≤ length s.now }
        ensures { MarkupRead s.now self.at result }
    {
        let at = self.at;
        match s.get(at) {
            Some(b'/') => Ok(Markup::EndTag(Cursor { at: at + 1 })),
            Some(b) if tree::name_start(*b) => Ok(Markup::StartTag(self)),
            _ => Err(Mismatch { offset: at }),
        }
    }

    // From behind the name of an end tag to behind the tag.
    pub fn close(self, s: &[u8]) -> Result<Cursor, Mismatch>
        requires { self.at ≤ length s.now }
        ensures { CloseRead s.now self.at result }
    {
        let behind = self.blanks(s);
        behind.over(s, b'>')
    }

    // From behind the name of an attribute to behind its opening quote.
    pub fn equals(self, s: &[u8]) -> Result<Opening, Mismatch>
        requires { self.at ≤ length s.now }
        ensures { EqualsRead s.now self.at result }
    {
        let before = self.blanks(s);
        let sign = before.over(s, b'=')?;
        let behind = sign.blanks(s);
        let at = behind.at;
        if at >= s.len() {
            return Err(Mismatch { offset: at });
        }
        let value = Cursor { at: at + 1 };
        match s[at] {
            quote @ (b'"' | b'\'') => Ok(Opening { quote, value }),
            _ => Err(Mismatch { offset: at }),
        }
    }

    // From behind a name or a value in a start tag to behind the tag, or to an attribute's name.
    pub fn item(self, s: &[u8]) -> Result<Item, Mismatch>
        requires { self.at ≤ length s.now }
        ensures { ItemRead s.now self.at result }
    {
        let from = self.at;
        let behind = self.blanks(s);
        let at = behind.at;
        match s.get(at) {
            Some(b'>') => Ok(Item::Open(Cursor { at: at + 1 })),
            Some(b'/') => behind.slash(s),
            Some(b) if at != from && tree::name_start(*b) => Ok(Item::Attribute(behind)),
            _ => Err(Mismatch { offset: at }),
        }
    }

    // An empty-element tag from its slash on.
    fn slash(self, s: &[u8]) -> Result<Item, Mismatch>
        requires { (self.at < length s.now) × (get_or s.now self.at 0 ≡ 47) }
        ensures { SlashRead s.now self.at result }
    {
        let slash = Cursor { at: self.at + 1 };
        let behind = slash.over(s, b'>')?;
        Ok(Item::Empty(behind))
    }
}
