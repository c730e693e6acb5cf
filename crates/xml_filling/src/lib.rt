// Fills the lent table with the nodes of an accepted input, in document order: each is put behind the last. The tokens are those by which
// the input was judged, but for the bytes of values and texts that stand for themselves; it is accepted, so none of them is refused.
#![tactic(auto)]

ghost use Rattle.std.specs.Prelude.{◌≡◌, [], ◌∷◌, ◌<◌, ◌≤◌, length};
ghost use Rattle.table.specs.Layout.{nodes, Layout};
ghost use Rattle.xml_filling.specs.Fill.{Put, kind_number, least, Decodes, Fits, TextPut, EndsAt, Behind, InTag, AtAttribute, AtElement, Filling};
ghost use Rattle.xml_filling.specs.Fill.{Same, Begun, Filled};

use table::outline;
use xml_reader::start;
use xml_tokens::{Cursor, Item, Markup, Piece};

// The kinds of the nodes that an input tells.
#[derive(Clone, Copy)]
enum Kind {
    Element,
    Attribute,
    Text,
}

impl From<Kind> for u8 {
    ghost from_gives = { λ kind n. n ≡ kind_number kind };

    fn from(kind: Kind) -> u8 {
        match kind {
            Kind::Element => 2,
            Kind::Attribute => 3,
            Kind::Text => 4,
        }
    }
}

// A node put behind the last, numbered by its place.
fn put(s: &mut [u8], depth: u16, kind: Kind, content: &[u8])
    requires { (Layout s.old) × (length (nodes s.old) < 1024) × (length content.now ≤ 32) }
    ensures { Put s.old s.new ((depth, record { kind = kind_number kind; content = content.now }) ∷ []) }
{
    let n = table::count(s);
    outline::insert(s, n, depth, n as u32, u8::from(kind), 0, content);
}

// In a value every byte that may stand there but a tab and a line feed is at least a space, so what is read is the larger of it and a
// space: one comparison for each byte, in place of three and a test whether it is a value.
#[tactic(auto, unfolding(crate::specs::Fill::least))]
fn least(stop: u8) -> u8
    ensures { result ≡ least stop }
{
    if stop == b'<' { 0 } else { b' ' }
}

// The characters of a value or a text, from the first on, decoded into a buffer, up to the byte that ends it.
// A while: a reference takes several bytes in one turn.
fn decode(from: Cursor, x: &[u8], stop: u8, buffer: &mut [u8; 32]) -> Piece
    requires { (from.at ≤ length x.now) × (length buffer.old ≡ 32) }
    ensures { (length buffer.new ≡ 32)
        × Decodes x.now stop from.at buffer.new result.length result.behind }
{
    let low = least(stop);
    let mut i = from.at;
    let mut n: usize = 0;
    while i < x.len() {
        let b = x[i];
        if b == stop {
            let behind = Cursor { at: i + 1 };
            return Piece { behind, length: n };
        }
        if n == 32 {
            break;
        }
        if b != b'&' {
            buffer[n] = b.max(low);
            n += 1;
            i += 1;
            continue;
        }
        let next = Cursor { at: i + 1 };
        let Ok(reference) = next.reference(x) else {
            break;
        };
        buffer[n] = reference.byte;
        n += 1;
        i = reference.behind.at;
    }
    let behind = Cursor { at: i };
    Piece { behind, length: n }
}

// A place of the input: the cursor, and the depth of the nodes there.
#[derive(Clone, Copy)]
struct Level {
    cursor: Cursor,
    depth: u16,
}

// A value or a text put behind the last node, where it is not empty; the cursor behind it.
// Decoded into 32 bytes of the stack, since there is no heap.
fn text(from: Level, s: &mut [u8], x: &[u8], stop: u8) -> Cursor
    requires { (from.cursor.at ≤ length x.now) × (Layout s.old) × Fits x.now s.old stop from.cursor.at from.depth }
    ensures { TextPut x.now stop from.cursor.at from.depth s.old s.new result }
{
    let at = from.cursor.at;
    if xml_tokens::peek(x, at) == stop {
        return Cursor { at: at + 1 };
    }
    let mut buffer = [0u8; 32];
    let content = decode(from.cursor, x, stop, &mut buffer);
    let bytes = &buffer[..content.length];
    put(s, from.depth, Kind::Text, bytes);
    content.behind
}

// From behind the slash of an end tag to behind the tag, which is there in an accepted input.
fn end_tag(from: Cursor, x: &[u8]) -> Cursor
    requires { from.at ≤ length x.now }
    ensures { EndsAt x.now from.at result }
{
    let end = from.name(x);
    end.close(x).unwrap_or(end)
}

// An attribute from the first byte of its name to behind its value.
fn attribute(from: Level, s: &mut [u8], x: &[u8]) -> Cursor
    requires { Filling AtAttribute x.now s.old from.cursor.at from.depth }
    ensures { Filling InTag x.now s.new result.at from.depth × Same s.old s.new
        × (from.cursor.at < result.at) }
{
    let end = from.cursor.name(x);
    let name = &x[from.cursor.at..end.at];
    put(s, from.depth, Kind::Attribute, name);
    let opening = end.equals(x).unwrap();
    let below = Level {
        cursor: opening.value,
        depth: from.depth + 1,
    };
    text(below, s, x, opening.quote)
}

// A start tag from behind its name on; attributes and children are at this depth.
fn attributes(from: Level, s: &mut [u8], x: &[u8]) -> Level
    requires { Filling InTag x.now s.old from.cursor.at from.depth }
    ensures { Filling Behind x.now s.new result.cursor.at result.depth × Same s.old s.new
        × (from.cursor.at < result.cursor.at) }
{
    let depth = from.depth;
    let mut here = from.cursor;
    loop {
        match here.item(x).unwrap() {
            Item::Open(cursor) => return Level { cursor, depth },
            Item::Empty(cursor) => {
                let depth = depth - 1;
                return Level { cursor, depth };
            }
            Item::Attribute(cursor) => {
                let name = Level { cursor, depth };
                here = attribute(name, s, x);
            }
        }
    }
}

// A start tag from the first byte of its name on.
fn start_tag(from: Level, s: &mut [u8], x: &[u8]) -> Level
    requires { Filling AtElement x.now s.old from.cursor.at from.depth }
    ensures { Filling Behind x.now s.new result.cursor.at result.depth × Same s.old s.new
        × (from.cursor.at < result.cursor.at) }
{
    let cursor = from.cursor.name(x);
    let name = &x[from.cursor.at..cursor.at];
    put(s, from.depth, Kind::Element, name);
    let depth = from.depth + 1;
    attributes(Level { cursor, depth }, s, x)
}

// A text, which may be empty, and the tag behind it.
fn child(from: Level, s: &mut [u8], x: &[u8]) -> Level
    requires { Filling Behind x.now s.old from.cursor.at from.depth × (1 < from.depth) }
    ensures { Filling Behind x.now s.new result.cursor.at result.depth × Same s.old s.new
        × (from.cursor.at < result.cursor.at) }
{
    let depth = from.depth;
    let tag = text(from, s, x, b'<');
    match tag.markup(x).unwrap() {
        Markup::EndTag(name) => Level {
            cursor: end_tag(name, x),
            depth: depth - 1,
        },
        Markup::StartTag(cursor) => start_tag(Level { cursor, depth }, s, x),
    }
}

// What stands behind an element, up to the end of the root element.
fn children(from: Level, s: &mut [u8], x: &[u8])
    requires { Filling Behind x.now s.old from.cursor.at from.depth }
    ensures { Filled x.now s.old s.new }
{
    let mut level = from;
    while 1 < level.depth {
        level = child(level, s, x);
    }
}

// The table with node 0 alone filled with the nodes of the input.
pub fn fill(s: &mut [u8], x: &[u8])
    requires { Begun x.now s.old }
    ensures { Filled x.now s.old s.new }
{
    let cursor = start::find_root(x).unwrap();
    let first = start_tag(Level { cursor, depth: 1 }, s, x);
    children(first, s, x);
}
