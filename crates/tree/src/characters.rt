// Characters in UTF-8, read a byte at a time: a byte is taken if some character of the class goes on so.
ghost use Rattle.std.specs.Prelude.{◌≡◌, ◌-◌, ◌≤◌, length, take, drop};
ghost use Rattle.tree.specs.Lists.{every};
ghost use Rattle.tree.specs.Spelling.{no_part, wrong_part, first_part, next_part, with_byte, breadth, meets, possible};
ghost use Rattle.tree.specs.Spelling.{start_of, is_faultless, fault_in};
ghost use Rattle.tree.specs.Values.{class, part_of, Small, Behind, reading_of, plain};

// A character as far as it is read: how many bytes are still to come, its value so far, and the least code point that is spelled with as
// many bytes in all.
#[derive(Clone, Copy)]
struct Part {
    more: u32,
    value: u32,
    least: u32,
}

// The ranges of a name's characters; the first fifteen are those of its first character.
const NAMES: [(u32, u32); 21] = [
    (65, 90),
    (95, 95),
    (97, 122),
    (0xC0, 0xD6),
    (0xD8, 0xF6),
    (0xF8, 0x2FF),
    (0x370, 0x37D),
    (0x37F, 0x1FFF),
    (0x200C, 0x200D),
    (0x2070, 0x218F),
    (0x2C00, 0x2FEF),
    (0x3001, 0xD7FF),
    (0xF900, 0xFDCF),
    (0xFDF0, 0xFFFD),
    (0x10000, 0xEFFFF),
    (45, 45),
    (46, 46),
    (48, 57),
    (0xB7, 0xB7),
    (0x300, 0x36F),
    (0x203F, 0x2040),
];

// The ranges of texts' characters.
const TEXTS: [(u32, u32); 5] = [
    (9, 9),
    (10, 10),
    (0x20, 0xD7FF),
    (0xE000, 0xFFFD),
    (0x10000, 0x10FFFF),
];

// Whether a code point of the ranges lies between two.
fn meets(table: &[(u32, u32)], low: u32, high: u32) -> bool
    ensures { result ≡ meets table.now low high }
{
    table
        .iter()
        .any(|(from, to)| low.max(*from) <= high.min(*to))
}

// Whether a character of the class lies between two. The table is a local: laid out once a call, not at each number.
fn class_meets(text: bool, first: bool, low: u32, high: u32) -> bool
    ensures { result ≡ meets (class text first) low high }
{
    if text {
        let table = TEXTS;
        return meets(&table, low, high);
    }
    let table = NAMES;
    if first {
        return meets(&table[..15], low, high);
    }
    meets(&table, low, high)
}

// How many values so many bytes may still add.
#[tactic(auto, unfolding(crate::specs::Spelling::breadth))]
fn breadth(more: u32) -> u32
    ensures { result ≡ breadth more }
{
    match more {
        0 => 1,
        1 => 64,
        2 => 4096,
        _ => 262144,
    }
}

// Whether some character of the class goes on so.
fn possible(text: bool, first: bool, p: Part) -> bool
    requires { Small (part_of p) }
    ensures { result ≡ possible (class text first) (part_of p) }
{
    let n = breadth(p.more);
    let low = p.value * n;
    class_meets(text, first, p.least.max(low), low + (n - 1))
}

// No character is begun.
fn no_part() -> Part
    ensures { part_of result ≡ no_part }
{
    Part {
        more: 0,
        value: 0,
        least: 0,
    }
}

// No character goes on so.
fn wrong_part() -> Part
    ensures { part_of result ≡ wrong_part }
{
    Part {
        more: 0,
        value: 0,
        least: 1,
    }
}

#[tactic(auto, unfolding(crate::specs::Spelling::first_part))]
fn first_part(b: u8) -> Part
    ensures { part_of result ≡ first_part b }
{
    let value = u32::from(b);
    match b {
        0..=127 => Part {
            more: 0,
            value,
            least: 0,
        },
        192..=223 => Part {
            more: 1,
            value: value - 192,
            least: 128,
        },
        224..=239 => Part {
            more: 2,
            value: value - 224,
            least: 2048,
        },
        240..=247 => Part {
            more: 3,
            value: value - 240,
            least: 65536,
        },
        _ => wrong_part(),
    }
}

#[tactic(auto, unfolding(crate::specs::Spelling::next_part))]
fn next_part(p: Part, b: u8) -> Part
    requires { (Small (part_of p)) × (1 ≤ p.more) }
    ensures { part_of result ≡ next_part (part_of p) b }
{
    match b {
        128..=191 => Part {
            more: p.more - 1,
            value: p.value * 64 + (u32::from(b) - 128),
            least: p.least,
        },
        _ => wrong_part(),
    }
}

// One byte more.
#[tactic(auto, unfolding(crate::specs::Spelling::with_byte))]
fn with_byte(p: Part, b: u8) -> Part
    requires { Small (part_of p) }
    ensures { part_of result ≡ with_byte (part_of p) b }
{
    match p.more {
        0 => first_part(b),
        _ => next_part(p, b),
    }
}

// Whether some character that a text, or else a name, may begin with begins with this byte.
pub fn begins(b: u8, text: bool) -> bool
    ensures { result ≡ possible (start_of text).here (first_part b) }
{
    if b >= 128 {
        possible(text, true, first_part(b))
    } else if text {
        crate::text_byte(b)
    } else {
        crate::name_start(b)
    }
}

// Where the reading stands: whether the character is the first, and how far it is read.
#[derive(Clone, Copy)]
struct Begun {
    first: bool,
    part: Part,
}

// With a part read, the character is whole or goes on.
fn behind(first: bool, p: Part) -> Begun
    ensures { Behind first (part_of p) result.first (part_of result.part) }
{
    if p.more == 0 {
        let part = no_part();
        Begun { first: false, part }
    } else {
        Begun { first, part: p }
    }
}

// The bytes from one place to another, as a text or else as a name: they are spelled as whole characters of the class, or no further than
// the first so many of them.
pub fn misspelled(s: &[u8], from: usize, to: usize, text: bool) -> Result<(), usize>
    requires { (from ≤ to) × (to ≤ length s.now) }
    ensures { result ≡ reading_of (fault_in (start_of text) (take (to - from) (drop from s.now))) }
{
    let part = no_part();
    let mut x = Begun { first: true, part };
    for i in from..to {
        let p = with_byte(x.part, s[i]);
        if !possible(text, x.first, p) {
            return Err(i - from);
        }
        x = behind(x.first, p);
    }
    if x.part.more == 0 {
        return Ok(());
    }
    Err(to - from)
}

// Whether all bytes are whole characters of the class.
pub fn whole(b: &[u8], text: bool) -> bool
    ensures { result ≡ is_faultless (fault_in (start_of text) b.now) }
{
    misspelled(b, 0, b.len(), text).is_ok()
}

// Whether a byte is by itself a character of texts, or else of names. Of names' bytes small letters are the most frequent.
#[tactic(auto, unfolding(crate::specs::Values::plain, crate::specs::Content::name_byte, crate::specs::Content::name_start))]
fn plain(x: u8, text: bool) -> bool
    ensures { result ≡ plain text x }
{
    if text {
        x < 128 && crate::text_byte(x)
    } else {
        x <= b'z' && crate::name_byte(x)
    }
}

// Whether all bytes are.
pub fn all_plain(b: &[u8], text: bool) -> bool
    ensures { result ≡ every (plain text) b.now }
{
    b.iter().all(|x| plain(*x, text))
}
