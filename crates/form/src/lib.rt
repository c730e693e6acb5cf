// The form of the lent bytes (docs/STATE.md): its check, and the bytes of the beginning.
#![tactic(auto)]

mod numbers;
mod sets;

ghost use Rattle.std.specs.Prelude.{◌≡◌, ◌<◌, ◌≤◌, length, ltb};
ghost use Rattle.tree.specs.Lists.{every, same};
ghost use Rattle.protocol.specs.Calls.{node_limit};
ghost use Rattle.table.specs.Layout.{state_size, count, cell, part};
ghost use Rattle.form.specs.Form.{sizes_in_range, slots, apart, form};
ghost use Rattle.table.specs.Laws.Bytes.{Filled};
ghost use Rattle.form.specs.Start.{start_byte, Started};
ghost use Rattle.form.specs.Check.{valid_header, marked, sum, cell_in_range, valid_first, valid_nodes, Outlined};

use table::layout;
use table::outline::Entry;

// Whether the bytes are enough, and begin as those of a state.
fn header(s: &[u8]) -> bool
    ensures { result ≡ valid_header s.now }
{
    if s.len() < layout::SIZE || !s.starts_with(&layout::MARK) {
        return false;
    }
    let n = usize::from(layout::word(s, layout::COUNT));
    1 <= n && n <= layout::NODES
}

// Marks the slots of all entries of the outline, each at its remainder modulo 1,024; whether all are below 1,024. The bits of all slots are
// joined, so that no turn of the loop branches on a slot.
// Not inlined: within `formed` the loop is a byte longer, and takes twice as long at one of four places that a linker may give to it.
#[inline(never)]
fn mark_slots(s: &[u8], met: &mut [u8; 1024]) -> bool
    requires { state_size ≤ length s.now }
    ensures { (result ≡ every (λ k. ltb k node_limit) (slots s.now))
        × (met.new ≡ marked met.old (slots s.now)) }
{
    let mut bits: u16 = 0;
    for i in 0..layout::NODES {
        let k = Entry::at(s, i).slot;
        bits |= k;
        met[usize::from(k % 1024)] = 1;
    }
    bits < 1024
}

// How many slots were met.
// A loop: what sum asks for, that no part of it is too large, is not known of the iterator's runs.
fn count_met(met: &[u8; 1024]) -> u16
    requires { (length met.now ≡ 1024) × (sum met.now ≤ 1024) }
    ensures { result ≡ sum met.now }
{
    let mut n = 0;
    for m in met {
        n += u16::from(*m);
    }
    n
}

// Whether the slots of all entries of the outline are below 1,024, and no two alike: 1,024 slots leave as many marks only if they are
// distinct. Marks are bytes: bits take longer.
fn distinct_slots(s: &[u8]) -> bool
    requires { state_size ≤ length s.now }
    ensures { result ≡ apart node_limit (slots s.now) }
{
    let mut met = [0; 1024];
    mark_slots(s, &mut met) && count_met(&met) == 1024
}

// Whether the size of the content in the cell of slot k is at most 32, and that of the saved one, if there is one.
fn sizes(s: &[u8], k: usize) -> bool
    requires { (state_size ≤ length s.now) × (k < 1024) }
    ensures { result ≡ sizes_in_range (cell s.now k) }
{
    let c = layout::CELLS + layout::CELL * k;
    let unwritten = s[c + 1] == 0;
    s[c + 4] <= 32 && (unwritten || s[c + 5] <= 32)
}

// Whether the cell of slot k has a kind from low to high, and marks and sizes in range. Kind and marks are read as one word, which is the
// kind where nobody marked the node: so most nodes take two tests. With `&` there is no branch between the tests of bytes.
// The kind is a number here: bytes that are not checked yet may have any (cell_in_range in specs/Check.antt).
fn cell(s: &[u8], k: usize, low: u8, high: u8, most: u8) -> bool
    requires { (state_size ≤ length s.now) × (k < 1024) }
    ensures { result ≡ cell_in_range low high most (cell s.now k) }
{
    let c = layout::CELLS + layout::CELL * k;
    let w = layout::double_word(s, c);
    if (u32::from(low) <= w) & (w <= u32::from(high)) {
        return s[c + 4] <= 32;
    }
    let kind = (low <= s[c]) & (s[c] <= high);
    let marks = (s[c + 1] <= 16) & ((s[c + 2] <= most) & (s[c + 3] <= most));
    kind & marks && sizes(s, k)
}

// Whether the first row is that of the document, which nobody inserted or deleted.
// 1 is the document's kind (valid_first in specs/Check.antt).
fn document(s: &[u8]) -> bool
    requires { Outlined s.now }
    ensures { result ≡ valid_first s.now }
{
    let first = Entry::at(s, 0);
    first.depth == 0 && first.number == 0 && cell(s, usize::from(first.slot), 1, 1, 0)
}

// Whether the n nodes are those of a tree: the document first, and every other at most one deeper than the node before it.
// 2 to 4 are the kinds of the other nodes (valid_nodes in specs/Check.antt).
fn nodes(s: &[u8], n: usize) -> bool
    requires { (Outlined s.now) × (n ≡ count s.now) }
    ensures { result ≡ valid_nodes s.now }
{
    if !document(s) {
        return false;
    }
    let mut before: usize = 0;
    for i in 1..n {
        let row = Entry::at(s, i);
        let d = usize::from(row.depth);
        if d < 1 || before + 1 < d || !cell(s, usize::from(row.slot), 2, 4, 16) {
            return false;
        }
        before = d;
    }
    true
}

// Whether the bytes are of the form: exactly those that hold a state.
pub fn formed(s: &[u8]) -> bool
    ensures { result ≡ form s.now }
{
    if !header(s) || !distinct_slots(s) {
        return false;
    }
    let n = usize::from(layout::word(s, layout::COUNT));
    nodes(s, n) && numbers::distinct(s, n) && sets::among_open(s)
}

// The beginning ----------------------------------------------------------------------

// Sets the bytes up to the kind of the first cell: the mark, one node, each place of the outline with the slot of its own number, and the
// document's kind.
fn begin(s: &mut [u8])
    requires { state_size ≤ length s.old }
    ensures { Filled 0 8209 start_byte s.old s.new }
{
    layout::store(s, 0, &layout::MARK);
    layout::clear(s, layout::OPEN, layout::CELLS - layout::OPEN);
    layout::set_word(s, layout::COUNT, 1);
    for i in 0..layout::NODES {
        layout::set_word(s, layout::OUTLINE + layout::ENTRY * i, i as u16);
    }
    s[layout::CELLS] = 1;
}

// Sets the bytes to node 0 alone, with nothing open; false if they are too few, and then nothing is changed.
pub fn start(s: &mut [u8]) -> bool
    ensures { Started s.old s.new result }
{
    if s.len() < layout::SIZE {
        return false;
    }
    begin(s);
    layout::clear(s, layout::CELLS + 1, layout::SIZE - layout::CELLS - 1);
    true
}
