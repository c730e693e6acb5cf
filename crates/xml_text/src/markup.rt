// The pieces of an XML text: each is put at the front of the lent bytes, and answers its length; and which node may stand where.
ghost use Rattle.std.specs.Prelude.{◌≡◌, ◌≤◌, length};
ghost use Rattle.xml.specs.Writing.{escape};
ghost use Rattle.xml_text.specs.Rows.{in_start_tag, fits, prolog};
ghost use Rattle.xml_text.specs.Lending.{Wrote};

// The kinds of nodes, as the lent bytes have them, and 0 for no node, as the definitions have it (`previous_of` in specs/Rows.antt).
pub const NO_NODE: u8 = 0;

pub const ELEMENT: u8 = 2;

pub const ATTRIBUTE: u8 = 3;

pub const TEXT: u8 = 4;

// A copy of p. A loop: most pieces are a few bytes whose number is known where this is inlined, and then it is one or two stores; and
// copy_from_slice calls memmove, where the library calls nothing but memcpy and memset (docs/PANEL.md).
pub fn put(out: &mut [u8], p: &[u8]) -> usize
    requires { length p.now ≤ length out.old }
    ensures { Wrote p.now out.old out.new result }
{
    for (i, b) in p.iter().enumerate() {
        out[i] = *b;
    }
    p.len()
}

// The declaration and a line feed.
pub fn put_prolog(out: &mut [u8]) -> usize
    requires { length prolog ≤ length out.old }
    ensures { Wrote prolog out.old out.new result }
{
    let at = put(out, &xml::LONG_DECLARATION);
    at + put(&mut out[at..], b"\n")
}

// A byte of a text, or of a value.
pub fn put_byte(out: &mut [u8], b: u8, value: bool) -> usize
    requires { length (escape value b) ≤ length out.old }
    ensures { Wrote (escape value b) out.old out.new result }
{
    match b {
        b'&' => put(out, &xml::AMP),
        b'<' => put(out, &xml::LT),
        b'>' => put(out, &xml::GT),
        b'"' => put(out, &xml::QUOT),
        b'\t' if value => put(out, &xml::TAB),
        b'\n' if value => put(out, &xml::LINE_FEED),
        _ => put(out, &[b]),
    }
}

// How many bytes stand for one of a text, or of a value. No branch, so that a loop over many bytes takes several at once; a `match` has one.
pub fn byte_length(b: u8, value: bool) -> u8
    ensures { (result ≡ length (escape value b)) × (result ≤ 6) }
{
    let v = u8::from(value);
    let amp = u8::from(b == b'&');
    let lt = u8::from(b == b'<');
    let gt = u8::from(b == b'>');
    let quot = u8::from(b == b'"');
    let tab = u8::from(b == b'\t');
    let line_feed = u8::from(b == b'\n');
    1 + 4 * amp + 3 * lt + 3 * gt + 5 * quot + 3 * v * tab + 4 * v * line_feed
}

// Whether a start tag is still open behind a child of this kind.
pub fn in_start_tag(previous: u8) -> bool
    ensures { result ≡ in_start_tag previous }
{
    matches!(previous, NO_NODE | ATTRIBUTE)
}

// Whether a node of a kind may be written below one of kind `parent` and behind one of kind `previous`.
#[tactic(auto, unfolding(crate::specs::Rows::fits, crate::specs::Rows::may_stand))]
pub fn fits(parent: u8, previous: u8, kind: u8) -> bool
    ensures { result ≡ fits parent previous kind }
{
    tree::takes(u32::from(parent), u32::from(kind))
        && match (parent, kind) {
            (ELEMENT, ATTRIBUTE) => in_start_tag(previous),
            (ELEMENT, TEXT) => previous != TEXT,
            (ELEMENT, _) => true,
            _ => previous == NO_NODE,
        }
}
