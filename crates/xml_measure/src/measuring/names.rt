// The names of the attributes of the element whose start tag was opened last, kept as places in the order of the names: a name is found
// by halving, whatever they are.
ghost use Rattle.std.specs.Prelude.{◌≡◌, ◌<◌, length};
ghost use Rattle.table.specs.Layout.{nodes, Layout};
ghost use Rattle.byte_strings.specs.Sorted.{Increasing, Belongs};
ghost use Rattle.xml_measure.specs.Lines.{label_at, Inside};
ghost use Rattle.xml_measure.specs.Names.{names_at, Entered, Followed};

use crate::committed;
use xml_text::markup::{ATTRIBUTE, TEXT};

// Where the name of the node at p belongs among the first count names.
fn place(s: &[u8], names: &[u16; 1024], count: usize, p: usize) -> Result<usize, usize>
    requires { (Layout s.now) × (p < length (nodes s.now)) × Inside (nodes s.now) names.now count
        × Increasing (names_at (nodes s.now) names.now) count }
    ensures { Belongs (names_at (nodes s.now) names.now) count
        (label_at (nodes s.now) p).content result }
{
    let name = committed::content(s, p);
    byte_strings::find(&names[..count], |q| {
        committed::content(s, q as usize).cmp(name)
    })
}

// The name of the node at p put among the first count names, unless it is one of them: how many they are then.
fn enter(s: &[u8], names: &mut [u16; 1024], count: usize, p: usize) -> Option<usize>
    requires { (Layout s.now) × (p < length (nodes s.now)) × (count < 1024) × Inside (nodes s.now) names.old count
        × Increasing (names_at (nodes s.now) names.old) count }
    ensures { Entered (nodes s.now) names.old names.new count p result }
{
    match place(s, names, count, p) {
        Ok(_) => None,
        Err(k) => {
            byte_strings::insert(names, k, count, p as u16);
            Some(count + 1)
        }
    }
}

// The names behind the node at p, of kind `kind`: those of its attributes are still to come behind an element, and a text leaves them.
pub fn follow(s: &[u8], names: &mut [u16; 1024], count: usize, p: usize, kind: u8) -> Option<usize>
    requires { (Layout s.now) × (p < length (nodes s.now)) × (count < 1024) × Inside (nodes s.now) names.old count
        × Increasing (names_at (nodes s.now) names.old) count × (kind ≡ (label_at (nodes s.now) p).kind) }
    ensures { Followed (nodes s.now) names.old names.new count p result }
{
    match kind {
        ATTRIBUTE => enter(s, names, count, p),
        TEXT => Some(count),
        _ => Some(0),
    }
}
