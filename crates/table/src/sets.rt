// The wait sets that are remembered in the lent bytes: a word for each transaction, with bit u-1 for each transaction u that it waits for.
ghost use Rattle.std.specs.Prelude.{◌≡◌, not, ◌&&◌, ◌-◌, ◌^◌, ◌≤◌, eqb, length};
ghost use Rattle.std.specs.Int.Bits.{bit_xor};
ghost use Rattle.table.specs.Layout.{state_size, set_at, word, remembered, Layout};
ghost use Rattle.table.specs.Laws.Bytes.{put_word};
ghost use Rattle.table.specs.Sets.{WithSet, Struck, Gathered};

use crate::layout;
use protocol::sets;
use std::array;

// A set with transaction t if it had it not, else without.
pub fn turned(w: u16, t: usize) -> u16
    requires { (1 ≤ t) × (t ≤ 16) }
    ensures { result ≡ bit_xor w (2 ^ (t - 1)) }
{
    w ^ (1 << (t - 1))
}

// The set of transaction t.
pub fn set(s: &[u8], t: usize) -> u16
    requires { (state_size ≤ length s.now) × (1 ≤ t) × (t ≤ 16) }
    ensures { result ≡ word s.now (set_at t) }
{
    layout::word(s, layout::SETS + 2 * (t - 1))
}

// The set of transaction t is w, and no other byte changes.
pub fn remember(s: &mut [u8], t: usize, w: u16)
    requires { (Layout s.old) × (1 ≤ t) × (t ≤ 16) }
    ensures { s.new ≡ put_word s.old (set_at t) w }
{
    layout::set_word(s, layout::SETS + 2 * (t - 1), w);
}

// Transaction t is struck from the set of v.
fn strike_from(s: &mut [u8], t: usize, v: usize)
    requires { (Layout s.old) × (1 ≤ t) × (t ≤ 16) × (1 ≤ v) × (v ≤ 16) }
    ensures { WithSet s.old s.new v (λ u. not (eqb u t) && remembered s.old v u) }
{
    let w = set(s, v);
    if sets::has(w, t) {
        remember(s, v, turned(w, t));
    }
}

// Transaction t is struck from all sets, and its own is empty.
pub fn strike(s: &mut [u8], t: usize)
    requires { (Layout s.old) × (1 ≤ t) × (t ≤ 16) }
    ensures { Struck s.old s.new t }
{
    for v in 1..=16 {
        strike_from(s, t, v);
    }
    remember(s, t, 0);
}

// All sixteen sets by value, that of transaction t at t - 1.
pub fn gather(s: &[u8]) -> [u16; 16]
    requires { Layout s.now }
    ensures { Gathered s.now result }
{
    array::from_fn(|k| set(s, k + 1))
}
