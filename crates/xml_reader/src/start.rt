// The way to the root element, with or without a declaration.
ghost use Rattle.std.specs.Prelude.{◌≤◌, length};
ghost use Rattle.xml.specs.Laws.Automaton.{at_start, prolog};
ghost use Rattle.xml.specs.Laws.Fixed.{word_at};
ghost use Rattle.xml_reader.specs.Prolog.{RootRead, DeclaredRead};

use xml_tokens::{Cursor, Mismatch, peek};

// Blanks, the < of the root element and the first byte of its name.
fn root(cursor: Cursor, s: &[u8]) -> Result<Cursor, Mismatch>
    requires { cursor.at ≤ length s.now }
    ensures { RootRead s.now prolog cursor.at result }
{
    let behind = cursor.blanks(s);
    let name = behind.over(s, b'<')?;
    match s.get(name.at) {
        Some(b) if tree::name_start(*b) => Ok(name),
        _ => Err(Mismatch { offset: name.at }),
    }
}

// A declaration, compared whole, and the way to the root element.
fn declared(s: &[u8], word: &[u8]) -> Result<Cursor, Mismatch>
    ensures { DeclaredRead s.now (word_at word.now 0 s.now) result }
{
    let n = byte_strings::agreement(s, 0, word);
    if n == word.len() {
        let behind = Cursor { at: n };
        return root(behind, s);
    }
    Err(Mismatch { offset: n })
}

// From the first byte of the input to the root element's name; the byte behind the version tells which declaration it can be.
pub fn find_root(s: &[u8]) -> Result<Cursor, Mismatch>
    ensures { RootRead s.now at_start 0 result }
{
    if !s.starts_with(b"<?") {
        let start = Cursor { at: 0 };
        return root(start, s);
    }
    if peek(s, 19) == b'?' {
        return declared(s, &xml::SHORT_DECLARATION);
    }
    declared(s, &xml::LONG_DECLARATION)
}
