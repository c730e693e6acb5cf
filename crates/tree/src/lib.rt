// Which bytes are a name, a text, the content of a kind, and which kind may stand under which.
#![tactic(auto)]

ghost use Rattle.std.specs.Prelude.{◌≡◌, cond};
ghost use Rattle.tree.specs.Content.{name_start, name_byte, text_byte, is_name, is_text, allowed, takes};

pub mod characters;

// Classes of bytes by comparisons: a table in a constant would be laid out anew at each lookup. Small letters, the most frequent, come
// first; a match over all ranges is compiled to comparisons in another order, and load of names in small letters takes more instructions.
#[tactic(auto, unfolding(crate::specs::Content::name_start))]
pub fn name_start(x: u8) -> bool
    ensures { result ≡ name_start x }
{
    if x >= b'a' {
        x <= b'z' || x >= 128
    } else {
        x == b'_' || (x >= b'A' && x <= b'Z')
    }
}

#[tactic(auto, unfolding(crate::specs::Content::name_byte, crate::specs::Content::name_start))]
pub fn name_byte(x: u8) -> bool
    ensures { result ≡ name_byte x }
{
    if x >= b'a' {
        x <= b'z' || x >= 128
    } else if x >= b'A' {
        x <= b'Z' || x == b'_'
    } else if x >= b'0' {
        x <= b'9'
    } else {
        x == b'-' || x == b'.'
    }
}

#[tactic(auto, unfolding(crate::specs::Content::text_byte))]
pub fn text_byte(x: u8) -> bool
    ensures { result ≡ text_byte x }
{
    x >= b' ' || x == b'\t' || x == b'\n'
}

// Whether 1 to 32 bytes are characters of a text, or else a name. Most are of ASCII, and are known by a test of each byte alone.
fn is_content(b: &[u8], text: bool) -> bool
    ensures { result ≡ cond text (is_text b.now) (is_name b.now) }
{
    if b.is_empty() || b.len() > 32 {
        return false;
    }
    if !text && !name_start(b[0]) {
        return false;
    }
    characters::all_plain(b, text) || characters::whole(b, text)
}

pub fn is_name(b: &[u8]) -> bool
    ensures { result ≡ is_name b.now }
{
    is_content(b, false)
}

pub fn is_text(b: &[u8]) -> bool
    ensures { result ≡ is_text b.now }
{
    is_content(b, true)
}

// The content that a node of a kind may have.
#[tactic(auto, unfolding(crate::specs::Content::allowed))]
pub fn allowed(kind: u32, b: &[u8]) -> bool
    ensures { result ≡ allowed kind b.now }
{
    match kind {
        1 => b.is_empty(),
        2 | 3 => is_name(b),
        4 => is_text(b),
        _ => false,
    }
}

// Whether a kind ever takes a child of a kind.
#[tactic(auto, unfolding(crate::specs::Content::takes))]
pub fn takes(parent: u32, kind: u32) -> bool
    ensures { result ≡ takes parent kind }
{
    match parent {
        1 => kind == 2,
        2 => 2 <= kind && kind <= 4,
        3 => kind == 4,
        _ => false,
    }
}
