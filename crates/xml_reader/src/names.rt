// The names of the attributes of a start tag, kept in their order, so that a name is found by halving, whatever they are. What is kept of a
// name is the offset of the byte before it: a name may begin at 65,536, one more than 16 bits hold.
ghost use Rattle.std.specs.Prelude.{◌≡◌, ◌+◌, ◌<◌, ◌≤◌, length};
ghost use Rattle.tree.specs.Content.{name_byte};
ghost use Rattle.xml.specs.Laws.Tokens.{name_at};
ghost use Rattle.byte_strings.specs.Order.{Ordered};
ghost use Rattle.byte_strings.specs.Sorted.{Increasing, Belongs};
ghost use Rattle.xml_tokens.specs.Steps.{Run};
ghost use Rattle.xml_reader.specs.Elements.{Placed, Attributed, Kept, attribute_names, EnterRead};

use std::cmp::Ordering;
use xml_tokens::peek;

// How the name at an offset lies to the one that stands between two others.
// No cmp of slices: where the other name ends is found only as far as the two agree.
fn order(s: &[u8], other: usize, from: usize, to: usize) -> Ordering
    requires { (from ≤ to) × (other ≤ length s.now) × Run name_byte s.now from to }
    ensures { Ordered (name_at s.now other) (name_at s.now from) result }
{
    let word = &s[from..to];
    let n = byte_strings::agreement(s, other, word);
    let next = peek(s, other + n);
    match (tree::name_byte(next), n < word.len()) {
        (true, true) => next.cmp(&word[n]),
        (true, false) => Ordering::Greater,
        (false, true) => Ordering::Less,
        (false, false) => Ordering::Equal,
    }
}

// Where a name belongs among the count names that are kept from lo on.
fn place(
    s: &[u8],
    names: &[u16; 1024],
    lo: usize,
    count: usize,
    from: usize,
    to: usize,
) -> Result<usize, usize>
    requires { (from ≤ to) × Run name_byte s.now from to × (lo + count ≤ 1024) × Placed s.now names.now (lo + count)
        × Increasing (attribute_names s.now names.now lo) count }
    ensures { Belongs (attribute_names s.now names.now lo) count (name_at s.now from) result }
{
    let kept = &names[lo..lo + count];
    byte_strings::find(kept, |o| order(s, o as usize + 1, from, to))
}

// A name put among the count names that are kept from lo on, unless it is one of them.
pub fn enter(
    s: &[u8],
    names: &mut [u16; 1024],
    lo: usize,
    count: usize,
    from: usize,
    to: usize,
) -> bool
    requires { Attributed s.now from × Run name_byte s.now from to × (lo + count < 1024) × Placed s.now names.old (lo + count)
        × Increasing (attribute_names s.now names.old lo) count × (length names.old ≡ 1024) }
    ensures { EnterRead s.now names.old names.new lo count from result
        × Kept lo names.old names.new }
{
    match place(s, names, lo, count, from, to) {
        Ok(_) => false,
        Err(k) => {
            byte_strings::insert(names, lo + k, lo + count, (from - 1) as u16);
            true
        }
    }
}
