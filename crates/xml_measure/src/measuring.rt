// The length of what writing the committed document gives, by one pass over its rows, and whether it can be written at all.
mod names;

ghost use Rattle.std.specs.Prelude.{◌≡◌, ◌<◌, ◌≤◌, length};
ghost use Rattle.table.specs.Layout.{nodes, Layout};
ghost use Rattle.xml_text.specs.Rows.{extra, cost};
ghost use Rattle.byte_strings.specs.Sorted.{Increasing};
ghost use Rattle.xml_measure.specs.Lines.{label_at, lines, Inside, Listed, Measured};
ghost use Rattle.xml_measure.specs.Walk.{previous_kind};
ghost use Rattle.xml_measure.specs.Names.{names_at, Admitted};

use crate::committed::{self, Rows};
use xml_text::markup::{self, ATTRIBUTE, ELEMENT, NO_NODE};

// The kind of the previous sibling of a node at depth d, 0 for none; kinds has the kind of the last node at each depth up to top.
#[tactic(auto, unfolding(crate::specs::Walk::previous_kind))]
pub fn previous(kinds: &[u8; 1024], top: usize, d: usize) -> u8
    requires { top < 1024 }
    ensures { result ≡ previous_kind kinds.now top d }
{
    if top < d { NO_NODE } else { kinds[d] }
}

// What a node adds to the length as the first child of its parent, of kind `kind`, that is no attribute.
#[tactic(auto, unfolding(xml_text::specs::Rows::extra))]
fn extra(s: &[u8], parent: usize, kind: u8, previous: u8) -> usize
    requires { (Layout s.now) × (parent < length (nodes s.now)) × (kind ≡ (label_at (nodes s.now) parent).kind) }
    ensures { (result ≡ extra (label_at (nodes s.now) parent) previous) × (result ≤ 34) }
{
    if kind == ELEMENT && markup::in_start_tag(previous) {
        committed::size(s, parent) + 2
    } else {
        0
    }
}

// What the node at p, of kind `kind`, adds to the length; its parent is of kind `above`.
#[tactic(auto, unfolding(xml_text::specs::Rows::cost))]
fn cost(s: &[u8], parent: usize, above: u8, previous: u8, p: usize, kind: u8) -> usize
    requires { (Layout s.now) × (parent < length (nodes s.now)) × (above ≡ (label_at (nodes s.now) parent).kind)
        × (p < length (nodes s.now)) × (kind ≡ (label_at (nodes s.now) p).kind) }
    ensures { (result ≡ cost (label_at (nodes s.now) parent) previous (label_at (nodes s.now) p)) × (result ≤ 256) }
{
    match kind {
        ATTRIBUTE => committed::size(s, p) + 4,
        ELEMENT => extra(s, parent, above, previous) + (committed::size(s, p) + 3),
        _ => {
            extra(s, parent, above, previous) + committed::escaped_size(s, p, above == ATTRIBUTE)
        }
    }
}

// The names behind the node at p, of kind `kind`, below a node of kind `above` and behind one of kind `before`: how many are kept, if the
// node may be written there.
fn admit(
    s: &[u8],
    names: &mut [u16; 1024],
    kept: usize,
    above: u8,
    before: u8,
    p: usize,
    kind: u8,
) -> Option<usize>
    requires { (Layout s.now) × (p < length (nodes s.now)) × (kept < 1024) × Inside (nodes s.now) names.old kept
        × Increasing (names_at (nodes s.now) names.old) kept × (kind ≡ (label_at (nodes s.now) p).kind) }
    ensures { Admitted (nodes s.now) names.old names.new kept above before p result }
{
    if !markup::fits(above, before, kind) {
        return None;
    }
    names::follow(s, names, kept, p, kind)
}

// The length of what is written, unless the document is not ordered or not expressible.
pub fn measure(s: &[u8], rows: &Rows) -> Option<usize>
    requires { (Layout s.now) × (Listed (nodes s.now) rows.now.places rows.now.count) }
    ensures { Measured (lines (nodes s.now) rows.now.places rows.now.count) result }
{
    if rows.count < 2 {
        return None;
    }
    let first = rows.places[0];
    let mut path = [0u16; 1024];
    path[0] = first;
    let mut kinds = [0u8; 1024];
    kinds[0] = table::kind(s, first as usize);
    let mut top: usize = 0;
    let mut names = [0u16; 1024];
    let mut kept: usize = 0;
    let mut sum: usize = 39;
    for i in 1..rows.count {
        let here = rows.places[i];
        let p = here as usize;
        let d = table::depth(s, p) as usize;
        let kind = table::kind(s, p);
        let above = kinds[d - 1];
        let before = previous(&kinds, top, d);
        kept = admit(s, &mut names, kept, above, before, p, kind)?;
        let parent = path[d - 1] as usize;
        sum += cost(s, parent, above, before, p, kind);
        path[d] = here;
        kinds[d] = kind;
        top = d;
    }
    if 65536 < sum {
        return None;
    }
    Some(sum)
}
