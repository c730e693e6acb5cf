// The lent bytes: where they hold the nodes, the locks, the open transactions, the wait sets and the counts of commits (docs/STATE.md). The
// contracts of public functions speak of `header` and `nodes`, but for `sets::remember`, which names the bytes that a wait changes.
#![tactic(auto)]

pub mod counts;
pub mod layout;
pub mod outline;
pub mod sets;
pub mod transactions;

ghost use Rattle.std.specs.Prelude.{◌≡◌, true, [], ◌<◌, ◌≤◌, length, get_or, eqb, MatchOption};
ghost use Rattle.protocol.specs.State.{unwritten, wrote, writer_of, deleted_by, with_inserter, with_update};
ghost use Rattle.table.specs.Lists.{modify, first};
ghost use Rattle.table.specs.Flat.{second};
ghost use Rattle.table.specs.Layout.{slot, nodes, no_entry, Layout, Kept};
ghost use Rattle.table.specs.Marks.{byte_of};
ghost use Rattle.table.specs.Fields.{Begins, field, storable, with_field, with_kind};
ghost use Rattle.table.specs.Fields.{has_text, text, with_bytes, restored, saved_bytes, saved_size, Stored, marked_written};

use outline::Entry;

// Who a node is marked by: who wrote its content, who inserted it, who deleted it.
// A mark is the number of a transaction, or 0 for nobody, as the lent bytes have it (docs/STATE.md).
#[derive(Clone, Copy)]
pub enum Mark {
    Writer,
    Inserter,
    Deleter,
}

// The mark's byte in the cell of a node.
impl From<Mark> for usize {
    ghost from_gives = { λ mark o. o ≡ byte_of mark };

    fn from(mark: Mark) -> usize {
        match mark {
            Mark::Writer => 1,
            Mark::Inserter => 2,
            Mark::Deleter => 3,
        }
    }
}

// How many nodes are held.
pub fn count(s: &[u8]) -> usize
    requires { Layout s.now }
    ensures { result ≡ length (nodes s.now) }
{
    usize::from(layout::word(s, layout::COUNT))
}

// The slot of the outline's entry at place i, used or free.
pub fn slot(s: &[u8], i: usize) -> usize
    requires { (Layout s.now) × (i < 1024) }
    ensures { (result ≡ slot s.now i) × (result < 1024) }
{
    usize::from(Entry::at(s, i).slot)
}

pub fn depth(s: &[u8], i: usize) -> u16
    requires { (Layout s.now) × (i < length (nodes s.now)) }
    ensures { result ≡ (get_or (nodes s.now) i no_entry).0 }
{
    Entry::at(s, i).depth
}

pub fn number(s: &[u8], i: usize) -> u32
    requires { (Layout s.now) × (i < length (nodes s.now)) }
    ensures { result ≡ (get_or (nodes s.now) i no_entry).1.now.number }
{
    Entry::at(s, i).number
}

// Byte o of the cell of the node at i: 0 is the kind, 1 to 3 are the marks.
fn field(s: &[u8], i: usize, o: usize) -> u8
    requires { (Layout s.now) × (i < length (nodes s.now)) × (o < 4) }
    ensures { result ≡ field o (get_or (nodes s.now) i no_entry).1 }
{
    s[layout::CELLS + layout::CELL * slot(s, i) + o]
}

pub fn marked_by(s: &[u8], i: usize, mark: Mark) -> u8
    requires { (Layout s.now) × (i < length (nodes s.now)) }
    ensures { result ≡ field (byte_of mark) (get_or (nodes s.now) i no_entry).1 }
{
    field(s, i, usize::from(mark))
}

pub fn kind(s: &[u8], i: usize) -> u8
    requires { (Layout s.now) × (i < length (nodes s.now)) }
    ensures { result ≡ (get_or (nodes s.now) i no_entry).1.now.kind }
{
    field(s, i, 0)
}

pub fn writer(s: &[u8], i: usize) -> u8
    requires { (Layout s.now) × (i < length (nodes s.now)) }
    ensures { result ≡ writer_of (get_or (nodes s.now) i no_entry).1.update }
{
    marked_by(s, i, Mark::Writer)
}

pub fn inserter(s: &[u8], i: usize) -> u8
    requires { (Layout s.now) × (i < length (nodes s.now)) }
    ensures { result ≡ (get_or (nodes s.now) i no_entry).1.inserter }
{
    marked_by(s, i, Mark::Inserter)
}

pub fn deleter(s: &[u8], i: usize) -> u8
    requires { (Layout s.now) × (i < length (nodes s.now)) }
    ensures { result ≡ (get_or (nodes s.now) i no_entry).1.deleter }
{
    marked_by(s, i, Mark::Deleter)
}

fn set_field(s: &mut [u8], i: usize, o: usize, v: u8)
    requires { (Layout s.old) × (i < length (nodes s.old)) × (o < 4) × (storable o v ≡ true) }
    ensures { Kept s.old s.new (modify i (second (with_field o v)) (nodes s.old)) }
{
    let k = slot(s, i);
    s[layout::CELLS + layout::CELL * k + o] = v;
}

pub fn set_mark(s: &mut [u8], i: usize, mark: Mark, v: u8)
    requires { (Layout s.old) × (i < length (nodes s.old)) × (storable (byte_of mark) v ≡ true) }
    ensures { Kept s.old s.new (modify i (second (with_field (byte_of mark) v)) (nodes s.old)) }
{
    set_field(s, i, usize::from(mark), v);
}

pub fn set_kind(s: &mut [u8], i: usize, v: u8)
    requires { (Layout s.old) × (i < length (nodes s.old)) }
    ensures { Kept s.old s.new (modify i (second (with_kind v)) (nodes s.old)) }
{
    set_field(s, i, 0, v);
}

pub fn clear_writer(s: &mut [u8], i: usize)
    requires { (Layout s.old) × (i < length (nodes s.old)) }
    ensures { Kept s.old s.new (modify i (second (with_update unwritten)) (nodes s.old)) }
{
    set_mark(s, i, Mark::Writer, 0);
}

pub fn set_inserter(s: &mut [u8], i: usize, v: u8)
    requires { (Layout s.old) × (i < length (nodes s.old)) }
    ensures { Kept s.old s.new (modify i (second (with_inserter v)) (nodes s.old)) }
{
    set_mark(s, i, Mark::Inserter, v);
}

pub fn set_deleter(s: &mut [u8], i: usize, v: u8)
    requires { (Layout s.old) × (i < length (nodes s.old)) }
    ensures { Kept s.old s.new (modify i (second (deleted_by v 0)) (nodes s.old)) }
{
    set_mark(s, i, Mark::Deleter, v);
}

// Bytes of the state -----------------------------------------------------------------

// The length of a content of the node at i: o is 0 for the one now, 1 for the one saved, if somebody wrote.
pub fn size(s: &[u8], i: usize, o: usize) -> usize
    requires { (Layout s.now) × (i < length (nodes s.now)) × (o < 2)
        × (has_text o (get_or (nodes s.now) i no_entry).1 ≡ true) }
    ensures { (result ≡ length (text o (get_or (nodes s.now) i no_entry).1)) × (result ≤ 32) }
{
    usize::from(s[layout::CELLS + layout::CELL * slot(s, i) + 4 + o])
}

// A content of the node at i.
pub fn content_bytes(s: &[u8], i: usize, o: usize) -> &[u8]
    requires { (Layout s.now) × (i < length (nodes s.now)) × (o < 2)
        × (has_text o (get_or (nodes s.now) i no_entry).1 ≡ true) }
    ensures { result.now ≡ text o (get_or (nodes s.now) i no_entry).1 }
{
    let n = size(s, i, o);
    let at = layout::CELLS + layout::CELL * slot(s, i) + 6 + 32 * o;
    &s[at..at + n]
}

// The 32 bytes that a content of the node at i may take.
pub fn content_window(s: &[u8], i: usize, o: usize) -> &[u8]
    requires { (Layout s.now) × (i < length (nodes s.now)) × (o < 2)
        × (has_text o (get_or (nodes s.now) i no_entry).1 ≡ true) }
    ensures { Begins (text o (get_or (nodes s.now) i no_entry).1) result.now }
{
    let at = layout::CELLS + layout::CELL * slot(s, i) + 6 + 32 * o;
    &s[at..at + 32]
}

pub fn set_content(s: &mut [u8], i: usize, b: &[u8])
    requires { (Layout s.old) × (i < length (nodes s.old)) × (length b.now ≤ 32) }
    ensures { Kept s.old s.new (modify i (second (with_bytes b.now)) (nodes s.old)) }
{
    let k = slot(s, i);
    s[layout::CELLS + layout::CELL * k + 4] = b.len() as u8;
    layout::store(s, layout::CELLS + layout::CELL * k + 6, b);
}

// The content o of the node at i stored as its content p.
fn copy_content(s: &mut [u8], i: usize, o: usize, p: usize)
    requires { (Layout s.old) × (i < length (nodes s.old)) × (o < 2) × (p < 2) × (o ≡ p → ⊥)
        × (has_text o (get_or (nodes s.old) i no_entry).1 ≡ true) }
    ensures { Stored s.old s.new i p (text o (get_or (nodes s.old) i no_entry).1) }
{
    let c = layout::CELLS + layout::CELL * slot(s, i);
    s[c + 4 + p] = s[c + 4 + o];
    layout::copy_32(s, c + 6 + 32 * o, c + 6 + 32 * p);
}

// The bytes that were saved last are the saved content.
fn set_writer(s: &mut [u8], i: usize, t: u8)
    requires { (Layout s.old) × (i < length (nodes s.old)) × (1 ≤ t) × (saved_size s.old i ≤ 32) }
    ensures { Kept s.old s.new
        (modify i (second (with_update (wrote t 0 (saved_bytes s.old i) []))) (nodes s.old)) }
{
    let k = slot(s, i);
    s[layout::CELLS + layout::CELL * k + 1] = t;
}

// Transaction t writes: the content now is saved, if nobody wrote before.
pub fn mark_written(s: &mut [u8], i: usize, t: u8)
    requires { (Layout s.old) × (i < length (nodes s.old)) × (1 ≤ t) }
    ensures { Kept s.old s.new (modify i (second (marked_written t)) (nodes s.old)) }
{
    let unwritten = writer(s, i) == 0;
    if unwritten {
        copy_content(s, i, 0, 1);
    }
    set_writer(s, i, t);
}

// The saved content is the content again.
pub fn restore_content(s: &mut [u8], i: usize)
    requires { (Layout s.old) × (i < length (nodes s.old)) × (has_text 1 (get_or (nodes s.old) i no_entry).1 ≡ true) }
    ensures { Kept s.old s.new (modify i (second restored) (nodes s.old)) }
{
    copy_content(s, i, 1, 0);
}

// The place of the node numbered n, if it is held.
// A loop: in a closure of find it is not known that i is less than the count, which number asks for.
pub fn find(s: &[u8], n: u32) -> Option<usize>
    requires { Layout s.now }
    ensures { let place = first (λ x. eqb x.1.now.number n) (nodes s.now) in
        MatchOption result (length (nodes s.now) ≤ place) (λ i. (i ≡ place) × (i < length (nodes s.now))) }
{
    for i in 0..count(s) {
        if number(s, i) == n {
            return Some(i);
        }
    }
    None
}
