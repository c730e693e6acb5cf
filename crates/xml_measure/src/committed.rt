// The committed document in the lent bytes: the places of its nodes, and their contents.
ghost use Rattle.std.specs.Prelude.{◌≡◌, true, ◌<◌, ◌≤◌, length};
ghost use Rattle.xml.specs.Writing.{escaped};
ghost use Rattle.table.specs.Layout.{nodes, Layout};
ghost use Rattle.table.specs.Fields.{has_text, text, Begins};
ghost use Rattle.rows.specs.Places.{item};
ghost use Rattle.xml_measure.specs.Lines.{label_at, Selected};

use table::layout;
use xml_content::escaping;

// Nodes in document order, each by its place.
// An array with its count, since there is no heap.
#[derive(Drop)]
pub struct Rows {
    pub places: [u16; 1024],
    pub count: usize,
}

// The nodes that no open transaction inserted, themselves or with a node above them.
pub fn select(s: &[u8]) -> Rows
    requires { Layout s.now }
    ensures { Selected (nodes s.now) result }
{
    let mut places = [0u16; 1024];
    let mut count: usize = 0;
    let mut hidden: usize = 0;
    for i in 0..table::count(s) {
        let d = table::depth(s, i) as usize;
        if layout::left_out(hidden, d) {
            continue;
        }
        let inserted = table::inserter(s, i) != 0;
        if inserted {
            hidden = d + 1;
            continue;
        }
        hidden = 0;
        places[count] = i as u16;
        count += 1;
    }
    Rows { places, count }
}

// Which content of the node at p is the committed one: 0 the one now, 1 the one saved.
pub fn version(s: &[u8], p: usize) -> usize
    requires { (Layout s.now) × (p < length (nodes s.now)) }
    ensures { (result < 2) × (text result (item (nodes s.now) p) ≡ (label_at (nodes s.now) p).content)
        × (has_text result (item (nodes s.now) p) ≡ true) }
{
    if table::writer(s, p) == 0 { 0 } else { 1 }
}

// The committed content of the node at p.
pub fn content(s: &[u8], p: usize) -> &[u8]
    requires { (Layout s.now) × (p < length (nodes s.now)) }
    ensures { (result.now ≡ (label_at (nodes s.now) p).content) × (length result.now ≤ 32) }
{
    let v = version(s, p);
    table::content_bytes(s, p, v)
}

// The 32 bytes that the committed content of the node at p may take; it stands at their beginning.
pub fn window(s: &[u8], p: usize) -> &[u8]
    requires { (Layout s.now) × (p < length (nodes s.now)) }
    ensures { Begins (label_at (nodes s.now) p).content result.now }
{
    let v = version(s, p);
    table::content_window(s, p, v)
}

// The length of the committed content of the node at p.
pub fn size(s: &[u8], p: usize) -> usize
    requires { (Layout s.now) × (p < length (nodes s.now)) }
    ensures { (result ≡ length (label_at (nodes s.now) p).content) × (result ≤ 32) }
{
    table::size(s, p, version(s, p))
}

// The same, with the references that writing it takes, in a value or in a text.
pub fn escaped_size(s: &[u8], p: usize, value: bool) -> usize
    requires { (Layout s.now) × (p < length (nodes s.now)) }
    ensures { (result ≡ length (escaped value (label_at (nodes s.now) p).content)) × (result ≤ 192) }
{
    escaping::escaped_length(window(s, p), size(s, p), value) as usize
}
