// Byte strings compared: how far two agree. Lists of places, kept in the order of what stands there.
#![tactic(auto)]

ghost use Rattle.std.specs.Prelude.{◌≡◌, ℕ, ◌<◌, ◌≤◌, List, length, slice_index};
ghost use Rattle.byte_strings.specs.Agreement.{Agreement};
ghost use Rattle.byte_strings.specs.Sorted.{Increasing, Belongs, Orders, Inserted};

use std::cmp::Ordering;

// How many bytes of a word stand in the input from an offset on. The loop's latest end is taken before it, so that each turn compares with
// one number.
pub fn agreement(s: &[u8], at: usize, word: &[u8]) -> usize
    requires { at ≤ length s.now }
    ensures { Agreement word.now s.now at result }
{
    let end = word.len().min(s.len() - at);
    for n in 0..end {
        if s[at + n] != word[n] {
            return n;
        }
    }
    end
}

// Where a name belongs among sorted ones, which `order` compares with it: the place that has it, or the one where it can be put. The order
// need be known of these entries only; `binary_search_by` asks for one that is known of all numbers.
pub fn find<F: Fn(u16) -> Ordering>(entries: &[u16], order: F) -> Result<usize, usize>
    requires { (i : ℕ) → i < length entries.now → F.pre order (slice_index entries.now i) }
    ensures { (name : ℕ → List ℕ) (w : List ℕ) → Increasing name (length entries.now) → Orders (F.post order) entries.now name w
        → Belongs name (length entries.now) w result }
{
    let mut low = 0;
    let mut high = entries.len();
    while low < high {
        let middle = low + (high - low) / 2;
        match order(entries[middle]) {
            Ordering::Less => low = middle + 1,
            Ordering::Equal => return Ok(middle),
            Ordering::Greater => high = middle,
        }
    }
    Err(low)
}

// An entry put at a place of a list; those from there to `end` go one place further.
pub fn insert(list: &mut [u16], at: usize, end: usize, place: u16)
    requires { (at ≤ end) × (end < length list.old) }
    ensures { Inserted list.old list.new at end place }
{
    list.copy_within(at..end, at + 1);
    list[at] = place;
}
