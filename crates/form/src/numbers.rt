// Whether no two nodes have the same number: the places that were passed stand in chained buckets, by the hash of their numbers.
ghost use Rattle.std.specs.Prelude.{◌≡◌, ℕ, ◌<◌, ◌≤◌, length, get_or};
ghost use Rattle.tree.specs.Lists.{distinct};
ghost use Rattle.table.specs.Layout.{state_size, number, tabulate};
ghost use Rattle.form.specs.Check.{bucket, chained};

use table::outline::Entry;

// The bucket of a number: bits 21 to 31 of its product with a prime near 2^32 divided by the golden ratio, so that numbers in regular steps
// seldom share one.
fn bucket(w: u32) -> usize
    ensures { (result ≡ bucket w) × (result < 2048) }
{
    (u64::from(w) * 2654435761 / 2097152 % 2048) as usize
}

// Whether a place in the chain has number w. Link j + 1 leads to place j, and each link is smaller than the one before; 0 ends the chain.
fn chained(s: &[u8], next: &[u16; 1024], first: u16, w: u32) -> bool
    requires { (state_size ≤ length s.now) × (first ≤ 1024) × ((j : ℕ) → get_or next.now j 0 ≤ j) }
    ensures { result ≡ chained (number s.now) next.now w 1024 first }
{
    let mut link = usize::from(first);
    while link != 0 {
        let j = link - 1;
        if Entry::at(s, j).number == w {
            return true;
        }
        link = usize::from(next[j]);
    }
    false
}

// Whether the numbers of the first n places are distinct. A place goes to the head of its bucket's chain.
// Links are numbers, 0 for none: an Option<u16> takes twice the stack.
pub fn distinct(s: &[u8], n: usize) -> bool
    requires { (state_size ≤ length s.now) × (n ≤ 1024) }
    ensures { result ≡ distinct (tabulate n (number s.now)) }
{
    let mut heads = [0; 2048];
    let mut next = [0; 1024];
    for i in 0..n {
        let w = Entry::at(s, i).number;
        let b = bucket(w);
        let first = heads[b];
        if chained(s, &next, first, w) {
            return false;
        }
        next[i] = first;
        heads[b] = i as u16 + 1;
    }
    true
}
