// End tags and what stands in an element, judged.
ghost use Rattle.std.specs.Prelude.{◌≡◌, true, ◌<◌, ◌≤◌, length, get_or};
ghost use Rattle.tree.specs.Content.{name_start};
ghost use Rattle.xml.specs.Laws.Automaton.{closed};
ghost use Rattle.xml.specs.Laws.Tokens.{name_at};
ghost use Rattle.xml_reader.specs.Elements.{stack, EndRead};
ghost use Rattle.xml_reader.specs.Children.{opened, ending, Behind, Beginning, Deep, ChildRead};

use super::start_tags::start_tag;
use super::{Inside, Tag};
use protocol::Cause;
use xml_tokens::{Cursor, Markup, Mismatch, Read, Refusal};

// An end tag, from behind its slash; the name that it has to have stands at from.
fn end_tag(cursor: Cursor, s: &[u8], from: usize) -> Result<Cursor, Mismatch>
    requires { (cursor.at ≤ length s.now) × (from ≤ length s.now) }
    ensures { EndRead s.now (name_at s.now from) cursor.at result }
{
    let at = cursor.at;
    let start = Cursor { at: from };
    let end = start.name(s);
    let to = end.at;
    let word = &s[from..to];
    let n = byte_strings::agreement(s, at, word);
    if n != to - from {
        return Err(Mismatch { offset: at + n });
    }
    let behind = Cursor { at: at + n };
    behind.close(s)
}

// The end tag of the innermost open element, from behind its slash.
fn end(from: Inside, s: &[u8], names: &[u16; 1024]) -> Result<Inside, Refusal>
    requires { (from.cursor.at ≤ length s.now) × Deep s.now names.now from.depth from.spare }
    ensures { ChildRead s.now (ending (stack s.now names.now 0 from.depth)) from.cursor.at from.spare
        names.now result }
{
    let depth = from.depth - 1;
    let name = names[depth] as usize + 1;
    let cursor = end_tag(from.cursor, s, name)?;
    Ok(Inside {
        cursor,
        depth,
        spare: from.spare,
    })
}

// The start tag of a child, from the first byte of its name on.
fn element(from: Inside, s: &[u8], names: &mut [u16; 1024]) -> Result<Inside, Refusal>
    requires { Behind s.now from.cursor.at × (from.cursor.at < length s.now) × (name_start (get_or s.now from.cursor.at 0) ≡ true)
        × Deep s.now names.old from.depth from.spare }
    ensures { ChildRead s.now (opened (stack s.now names.old 0 from.depth)) from.cursor.at from.spare
        names.new result }
{
    let at = from.cursor.at;
    let depth = from.depth;
    if !tree::characters::begins(s[at], false) {
        return Err(Refusal::new(Cause::NotOfGrammar, at));
    }
    if from.spare == 0 {
        return Err(Refusal::new(Cause::NodesOverLimit, at - 1));
    }
    let name = Inside {
        spare: from.spare - 1,
        ..from
    };
    match start_tag(name, s, names)? {
        Tag::Opened(Read { behind, spare }) => Ok(Inside {
            cursor: behind,
            depth: depth + 1,
            spare,
        }),
        Tag::Emptied(Read { behind, spare }) => Ok(Inside {
            cursor: behind,
            depth,
            spare,
        }),
    }
}

// A tag from behind its <; the offsets of the bytes before the names of the open elements are kept at the first places.
fn tag(from: Inside, s: &[u8], names: &mut [u16; 1024]) -> Result<Inside, Refusal>
    requires { Behind s.now from.cursor.at × Deep s.now names.old from.depth from.spare }
    ensures { ChildRead s.now (opened (stack s.now names.old 0 from.depth)) from.cursor.at from.spare
        names.new result }
{
    match from.cursor.markup(s)? {
        Markup::EndTag(cursor) => end(Inside { cursor, ..from }, s, names),
        Markup::StartTag(cursor) => element(Inside { cursor, ..from }, s, names),
    }
}

// A text, which may be empty, and the tag behind it.
pub fn child(from: Inside, s: &[u8], names: &mut [u16; 1024]) -> Result<Inside, Refusal>
    requires { Beginning s.now from.cursor.at × Deep s.now names.old from.depth from.spare }
    ensures { ChildRead s.now (closed (stack s.now names.old 0 from.depth)) from.cursor.at from.spare
        names.new result }
{
    let text = from.cursor.text(s, b'<', from.cursor.at, from.spare)?;
    let behind = Inside {
        cursor: text.behind,
        depth: from.depth,
        spare: text.spare,
    };
    tag(behind, s, names)
}
