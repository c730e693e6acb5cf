// Start tags and their attributes.
ghost use Rattle.std.specs.Prelude.{◌≡◌, ◌+◌, ◌≤◌, length, get_or};
ghost use Rattle.byte_strings.specs.Sorted.{Increasing};
ghost use Rattle.xml_reader.specs.Elements.{Placed, Attributed, Kept, attribute_names, AttributeEnters};
ghost use Rattle.xml_reader.specs.Elements.{AttributesRead, Named, ElementRead};

use super::names::enter;
use super::{Inside, Tag};
use protocol::Cause;
use xml_tokens::{Item, Read, Refusal};

// An attribute from the first byte of its name to behind its value; its name is put among those before it, which stand from lo on.
fn attribute(
    from: Read,
    s: &[u8],
    names: &mut [u16; 1024],
    lo: usize,
    count: usize,
) -> Result<Read, Refusal>
    requires { Attributed s.now from.behind.at × (lo + count + 1 + from.spare ≤ 1024) × Placed s.now names.old (lo + count)
        × Increasing (attribute_names s.now names.old lo) count × (length names.old ≡ 1024) }
    ensures { AttributeEnters s.now names.old names.new lo count from.behind.at from.spare result }
{
    let at = from.behind.at;
    if !tree::characters::begins(s[at], false) {
        return Err(Refusal::new(Cause::NotOfGrammar, at));
    }
    if from.spare == 0 {
        return Err(Refusal::new(Cause::NodesOverLimit, at));
    }
    let name = from.behind.spelled_name(s)?;
    let end = name.behind;
    if !enter(s, names, lo, count, at, end.at) {
        return Err(Refusal::new(Cause::NotOfGrammar, end.at));
    }
    let opening = end.equals(s)?;
    let begin = opening.value.at - 1;
    opening.value.text(s, opening.quote, begin, from.spare - 1)
}

// A start tag from behind its name on; the names of its attributes are kept from lo on.
fn attributes(from: Read, s: &[u8], names: &mut [u16; 1024], lo: usize) -> Result<Tag, Refusal>
    requires { (from.behind.at ≤ length s.now) × (lo + 1 + from.spare ≤ 1024) × Placed s.now names.old lo × (length names.old ≡ 1024) }
    ensures { AttributesRead s.now from.behind.at from.spare result × Kept lo names.old names.new }
{
    let mut read = from;
    let mut count: usize = 0;
    loop {
        match read.behind.item(s)? {
            Item::Open(behind) => return Ok(Tag::Opened(Read { behind, ..read })),
            Item::Empty(behind) => return Ok(Tag::Emptied(Read { behind, ..read })),
            Item::Attribute(behind) => {
                read = attribute(Read { behind, ..read }, s, names, lo, count)?;
                count += 1;
            }
        }
    }
}

// A start tag from the first byte of its name on; the offset of the byte before the name is kept at place depth.
pub fn start_tag(from: Inside, s: &[u8], names: &mut [u16; 1024]) -> Result<Tag, Refusal>
    requires { Named s.now from.cursor.at × (from.depth + 2 + from.spare ≤ 1024) × Placed s.now names.old from.depth
        × (length names.old ≡ 1024) }
    ensures { ElementRead s.now from.cursor.at from.spare result × Kept from.depth names.old names.new
        × (get_or names.new from.depth 0 + 1 ≡ from.cursor.at) }
{
    let at = from.cursor.at;
    names[from.depth] = (at - 1) as u16;
    let name = from.cursor.spelled_name(s)?;
    let read = Read {
        behind: name.behind,
        spare: from.spare,
    };
    attributes(read, s, names, from.depth + 1)
}
