// What reading steps find in the lent bytes: a child, a content, a subtree as the caller sees it; and what they put into lent buffers.
#![tactic(auto)]

ghost use Rattle.std.specs.Prelude.{◌≡◌, map, ◌+◌, ◌*◌, ◌<◌, ◌≤◌, All, length, MatchOption};
ghost use Rattle.tree.specs.Steps.{child_is, none};
ghost use Rattle.protocol.specs.Answers.{granted_answer};
ghost use Rattle.protocol.specs.Lent.{list_bytes, cell, cells, filled};
ghost use Rattle.table.specs.Layout.{nodes, Layout};
ghost use Rattle.rows.specs.Places.{item, number_of, children};
ghost use Rattle.rows.specs.Found.{kth_child, kind_of};
ghost use Rattle.node_reading.specs.Subtree.{Selected};

use protocol::Answer;
use table::{Mark, layout, outline};

// Where the k-th child of the node at p that t sees stands, k from 1.
fn child_place(s: &[u8], t: u8, p: usize, k: u32) -> Option<usize>
    requires { (Layout s.now) × (p < length (nodes s.now)) }
    ensures { MatchOption result (kth_child k (children t (nodes s.now) p) ≡ none) (λ i. (i < length (nodes s.now))
        × (kth_child k (children t (nodes s.now) p) ≡ child_is (number_of (item (nodes s.now) i)) (kind_of (item (nodes s.now) i)))) }
{
    let e = table::depth(s, p);
    let mut before = k.checked_sub(1)?;
    for i in p + 1..table::count(s) {
        let d = table::depth(s, i);
        if d <= e {
            return None;
        }
        if d != e + 1 || table::deleter(s, i) == t {
            continue;
        }
        if before == 0 {
            return Some(i);
        }
        before -= 1;
    }
    None
}

// The k-th child of the node at p that t sees, k from 1.
pub fn kth_child(s: &[u8], t: u8, p: usize, k: u32) -> Answer
    requires { (Layout s.now) × (p < length (nodes s.now)) }
    ensures { result ≡ granted_answer (kth_child k (children t (nodes s.now) p)) }
{
    match child_place(s, t, p, k) {
        Some(i) => Answer::Child {
            kind: table::kind(s, i),
            number: table::number(s, i),
        },
        None => Answer::NoChild,
    }
}

// The places of the node at p and of all below it that t sees, in document order; how many. t did not delete the node.
// The caller lends the array, since there is no heap; by value it takes 2 KB more of the stack.
pub fn select(s: &[u8], t: u8, p: usize, places: &mut [u16; 1024]) -> usize
    requires { (Layout s.now) × (p < length (nodes s.now)) × (length places.old ≡ 1024) }
    ensures { Selected (nodes s.now) t p (record { places = places.exit.now; count = result }) }
{
    let e = table::depth(s, p);
    places[0] = p as u16;
    let mut count: usize = 1;
    let mut hidden: u32 = 0;
    for i in p + 1..table::count(s) {
        if table::depth(s, i) <= e {
            return count;
        }
        hidden = outline::next_below(s, i, hidden, Mark::Deleter, t);
        if hidden == 0 {
            places[count] = i as u16;
            count += 1;
        }
    }
    count
}

// The content of the node at i to a lent buffer.
pub fn content(s: &[u8], i: usize, out: &mut [u8])
    requires { (Layout s.now) × (i < length (nodes s.now)) × (length (item (nodes s.now) i).now.content ≤ length out.old) }
    ensures { out.new ≡ filled (item (nodes s.now) i).now.content out.old }
{
    layout::store(out, 0, table::content_bytes(s, i, 0));
}

// The cell of the node at i to a piece of a lent buffer: length, content, zeros.
fn put_cell(s: &[u8], i: usize, out: &mut [u8])
    requires { (Layout s.now) × (i < length (nodes s.now)) × (length out.old ≡ 33) }
    ensures { out.new ≡ cell (item (nodes s.now) i).now.content }
{
    let n = table::size(s, i, 0);
    out[0] = n as u8;
    layout::store(out, 1, table::content_bytes(s, i, 0));
    layout::clear(out, 1 + n, 32 - n);
}

// The numbers of the nodes at these places to a lent buffer, low byte first.
pub fn numbers(s: &[u8], places: &[u16], out: &mut [u8])
    requires { (Layout s.now) × (All (λ i. i < length (nodes s.now)) places.now) × (4 * length places.now ≤ length out.old) }
    ensures { out.new ≡ filled (list_bytes (map number_of (map (item (nodes s.now)) places.now))) out.old }
{
    for (j, place) in places.iter().enumerate() {
        let n = table::number(s, usize::from(*place));
        out[4 * j..4 * j + 4].copy_from_slice(&n.to_le_bytes());
    }
}

// The cells of the nodes at these places to a lent buffer, 33 bytes each.
pub fn cells(s: &[u8], places: &[u16], out: &mut [u8])
    requires { (Layout s.now) × (All (λ i. i < length (nodes s.now)) places.now) × (33 * length places.now ≤ length out.old) }
    ensures { out.new ≡ filled (cells (map (λ a. (number_of a, a.now.content)) (map (item (nodes s.now)) places.now))) out.old }
{
    for (j, place) in places.iter().enumerate() {
        put_cell(s, usize::from(*place), &mut out[33 * j..33 * j + 33]);
    }
}
