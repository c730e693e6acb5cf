// The one pass of an end over the places of the outline: what goes is dropped, what stays is lasting or as before, and the locks go.
ghost use Rattle.std.specs.Prelude.{◌≡◌, true, ◌<◌, ◌≤◌, length, get_or};
ghost use Rattle.protocol.specs.State.{touched_by, count_touched};
ghost use Rattle.table.specs.Lists.{modify};
ghost use Rattle.table.specs.Flat.{second};
ghost use Rattle.table.specs.Layout.{nodes, no_entry, Layout, Kept};
ghost use Rattle.table.specs.Marks.{byte_of};
ghost use Rattle.table.specs.Outline.{next_below};
ghost use Rattle.ends.specs.Marks.{stays, without_mark, rewritten, ended_marks, marks_sum};
ghost use Rattle.ends.specs.Pass.{IfKept, Moved, OnePass};

use table::{Mark, counts, outline, transactions};

// How a transaction ends: what it did is lasting, by the n-th commit, or undone.
#[derive(Clone, Copy)]
pub enum Ending {
    Lasting(u32),
    Undone,
}

// The mark of the node at i, where it is t's, is nobody's.
fn clear_mark(s: &mut [u8], i: usize, mark: Mark, t: u8)
    requires { (Layout s.old) × (i < length (nodes s.old)) }
    ensures { Kept s.old s.new (modify i (second (without_mark (byte_of mark) t)) (nodes s.old)) }
{
    if table::marked_by(s, i, mark) == t {
        table::set_mark(s, i, mark, 0);
    }
}

// The node at i has its saved content again, and nobody as its writer, where t wrote it.
fn rewrite(s: &mut [u8], i: usize, t: u8)
    requires { (Layout s.old) × (i < length (nodes s.old)) × (1 ≤ t) }
    ensures { Kept s.old s.new (modify i (second (λ a. without_mark 1 t (rewritten t a))) (nodes s.old)) }
{
    if table::writer(s, i) == t {
        table::restore_content(s, i);
        table::set_mark(s, i, Mark::Writer, 0);
    }
}

// Whether t inserted the node at i or updated its content.
fn touched(s: &[u8], i: usize, t: u8) -> bool
    requires { (Layout s.now) × (i < length (nodes s.now)) }
    ensures { result ≡ touched_by t (get_or (nodes s.now) i no_entry).1 }
{
    table::inserter(s, i) == t || table::writer(s, i) == t
}

// The node at i bears the count n, where t touched it.
fn count_touched(s: &mut [u8], i: usize, n: u32, t: u8)
    requires { (Layout s.old) × (i < length (nodes s.old)) }
    ensures { Kept s.old s.new (modify i (second (count_touched n t)) (nodes s.old)) }
{
    if touched(s, i, t) {
        counts::set_count(s, i, n);
    }
}

// What t wrote and inserted of the node at i is lasting, or what t wrote and deleted of it is undone.
fn end_node(s: &mut [u8], i: usize, end: Ending, t: u8)
    requires { (Layout s.old) × (i < length (nodes s.old)) × (1 ≤ t) }
    ensures { Kept s.old s.new (modify i (second (ended_marks end t)) (nodes s.old)) }
{
    match end {
        Ending::Lasting(n) => {
            count_touched(s, i, n, t);
            clear_mark(s, i, Mark::Writer, t);
            clear_mark(s, i, Mark::Inserter, t);
        }
        Ending::Undone => {
            rewrite(s, i, t);
            clear_mark(s, i, Mark::Deleter, t);
        }
    }
}

// The three marks of the node at j added: 0 where nobody has one there, so that one test does for all three. The bound is for the sum with
// a depth, which then fits.
fn marks(s: &[u8], j: usize) -> usize
    requires { (Layout s.now) × (j < length (nodes s.now)) }
    ensures { (result ≡ marks_sum (get_or (nodes s.now) j no_entry).1) × (result ≤ 765) }
{
    let w = usize::from(table::writer(s, j));
    let i = usize::from(table::inserter(s, j));
    let d = usize::from(table::deleter(s, j));
    w + i + d
}

// The least depth that is left out behind the node at j, 0 where the node stays: what t deleted goes where the rest is lasting, and what t
// inserted where all is undone.
fn next_below(s: &[u8], j: usize, below: u32, end: Ending, t: u8) -> u32
    requires { (Layout s.now) × (j < length (nodes s.now)) }
    ensures { result ≡ next_below (stays end t) below (get_or (nodes s.now) j no_entry) }
{
    match end {
        Ending::Lasting(_) => outline::next_below(s, j, below, Mark::Deleter, t),
        Ending::Undone => outline::next_below(s, j, below, Mark::Inserter, t),
    }
}

// Answers the least depth that is left out behind the node at j; where that is 0 the node stays, and its marks of t go. Most nodes have no
// mark and are not below one that is left out, and then there is nothing to do.
fn end_marks(s: &mut [u8], j: usize, below: u32, end: Ending, t: u8) -> u32
    requires { (Layout s.old) × (j < length (nodes s.old)) × (1 ≤ t) }
    ensures { IfKept end t below j s.old s.new result }
{
    if below as usize + marks(s, j) == 0 {
        return 0;
    }
    let next = next_below(s, j, below, end, t);
    if next == 0 {
        end_node(s, j, end, t);
    }
    next
}

// Where the node at j stays (`next` is 0) it is moved behind the first k, which stay. Answers how many stay then.
fn keep(s: &mut [u8], k: usize, j: usize, next: u32) -> usize
    requires { (Layout s.old) × (k ≤ j) × (j < length (nodes s.old)) }
    ensures { Moved k j next s.old s.new result }
{
    if 0 < next {
        return k;
    }
    outline::swap(s, k, j);
    k + 1
}

// One pass over the places, with one visit for each node; answers how many. What is left is what dropping all and then releasing all leaves.
// Slots of no node are not visited: whatever lock words they have, nobody holds anything there (form/specs/Laws/FreeLocks).
pub fn one_pass(s: &mut [u8], end: Ending, t: u8) -> usize
    requires { (Layout s.old) × (1 ≤ t) × (t ≤ 16) × (stays end t (get_or (nodes s.old) 0 no_entry).1 ≡ true) }
    ensures { OnePass end t s.old s.new result }
{
    let m = table::count(s);
    let mut kept: usize = 0;
    let mut below: u32 = 0;
    let mut visits: usize = 0;
    for j in 0..m {
        below = end_marks(s, j, below, end, t);
        transactions::release(s, t as usize, j);
        kept = keep(s, kept, j, below);
        visits += 1;
    }
    outline::cut(s, kept);
    visits
}
