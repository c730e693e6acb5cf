// The outline of the lent bytes: a node put in at a place, and nodes taken out. Slots stay where they are; only the outline's entries move.
ghost use Rattle.std.specs.Prelude.{◌≡◌, ◌+◌, ◌<◌, ◌≤◌, length, get_or, take};
ghost use Rattle.protocol.specs.State.{inserted_by};
ghost use Rattle.table.specs.Lists.{insert};
ghost use Rattle.table.specs.Layout.{state_size, slot, depth, number, nodes, no_entry, Layout, Left, Kept, header};
ghost use Rattle.table.specs.Marks.{byte_of};
ghost use Rattle.table.specs.Outline.{Entered, Shifted, Opened, exchange, next_below, not_marked};

use crate::{Mark, counts, layout, transactions};

// What the outline holds at a place: the node's slot, depth and number.
#[derive(Clone, Copy)]
pub struct Entry {
    pub slot: u16,
    pub depth: u16,
    pub number: u32,
}

impl Entry {
    pub fn at(s: &[u8], i: usize) -> Self
        requires { (state_size ≤ length s.now) × (i < 1024) }
        ensures { (result.slot ≡ slot s.now i) × (result.depth ≡ depth s.now i) × (result.number ≡ number s.now i) }
    {
        let at = layout::OUTLINE + layout::ENTRY * i;
        Entry {
            slot: layout::word(s, at),
            depth: layout::word(s, at + 2),
            number: layout::double_word(s, at + 4),
        }
    }

    fn store(self, s: &mut [u8], i: usize)
        requires { (state_size ≤ length s.old) × (i < 1024) }
        ensures { Entered s.old s.new i self.slot self.depth self.number }
    {
        let at = layout::OUTLINE + layout::ENTRY * i;
        layout::set_word(s, at, self.slot);
        layout::set_word(s, at + 2, self.depth);
        layout::set_double_word(s, at + 4, self.number);
    }
}

// The entries from place p up to n moved up by one place. A loop, since copy_within calls memmove, and the library calls nothing but memcpy
// and memset (docs/PANEL.md).
fn shift(s: &mut [u8], p: usize, n: usize)
    requires { (state_size ≤ length s.old) × (p ≤ n) × (n < 1024) }
    ensures { Shifted s.old s.new p n }
{
    for k in (p..n).rev() {
        let entry = Entry::at(s, k);
        entry.store(s, k + 1);
    }
}

// A place opened for a node numbered n at depth d: the first free slot, its old sizes cleared.
fn open_place(s: &mut [u8], p: usize, d: u16, n: u32)
    requires { (Layout s.old) × (length (nodes s.old) < 1024) × (p ≤ length (nodes s.old)) }
    ensures { Opened s.old s.new p d n }
{
    let m = crate::count(s);
    let k = crate::slot(s, m);
    layout::clear(s, layout::CELLS + layout::CELL * k + 4, 2);
    shift(s, p, m);
    let entry = Entry {
        slot: k as u16,
        depth: d,
        number: n,
    };
    entry.store(s, p);
    layout::set_word(s, layout::COUNT, (m + 1) as u16);
}

// A node inserted by t, at place p and depth d.
pub fn insert(s: &mut [u8], p: usize, d: u16, n: u32, kind: u8, t: u8, content: &[u8])
    requires { (Layout s.old) × (length (nodes s.old) < 1024) × (p ≤ length (nodes s.old)) × (length content.now ≤ 32) }
    ensures { Left s.old s.new (header s.old)
        (insert p (d, inserted_by t 0 (record { number = n; kind = kind; content = content.now })) (nodes s.old)) }
{
    open_place(s, p, d, n);
    crate::set_kind(s, p, kind);
    crate::clear_writer(s, p);
    crate::set_inserter(s, p, t);
    crate::set_deleter(s, p, 0);
    crate::set_content(s, p, content);
    counts::set_count(s, p, 0);
    transactions::unlock(s, p);
}

// The entries at places i and j exchanged.
pub fn swap(s: &mut [u8], i: usize, j: usize)
    requires { (Layout s.old) × (i ≤ j) × (j < length (nodes s.old)) }
    ensures { Kept s.old s.new (exchange i j (nodes s.old)) }
{
    if i == j {
        return;
    }
    let first = Entry::at(s, i);
    let second = Entry::at(s, j);
    first.store(s, j);
    second.store(s, i);
}

// Only the first k nodes are held; the slots of the others are free.
pub fn cut(s: &mut [u8], k: usize)
    requires { (Layout s.old) × (1 ≤ k) × (k ≤ length (nodes s.old)) }
    ensures { Left s.old s.new (header s.old) (take k (nodes s.old)) }
{
    layout::set_word(s, layout::COUNT, k as u16);
}

// One more than the depth of the node at j where its mark is t, else 0.
fn below_marked(s: &[u8], j: usize, mark: Mark, t: u8) -> u32
    requires { (Layout s.now) × (j < length (nodes s.now)) }
    ensures { result ≡ next_below (not_marked (byte_of mark) t) 0 (get_or (nodes s.now) j no_entry) }
{
    if crate::marked_by(s, j, mark) == t {
        u32::from(crate::depth(s, j)) + 1
    } else {
        0
    }
}

// The least depth that is left out behind the node at j, 0 where the node is kept: those whose mark is t go, with all below them.
pub fn next_below(s: &[u8], j: usize, below: u32, mark: Mark, t: u8) -> u32
    requires { (Layout s.now) × (j < length (nodes s.now)) }
    ensures { result ≡ next_below (not_marked (byte_of mark) t) below (get_or (nodes s.now) j no_entry) }
{
    if layout::left_out(below as usize, crate::depth(s, j) as usize) {
        below
    } else {
        below_marked(s, j, mark, t)
    }
}
