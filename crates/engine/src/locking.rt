// The way up from a node, the transactions that a step waits for there, and the locks that it is granted.
ghost use Rattle.std.specs.Prelude.{◌≡◌, false, ◌<◌, ◌≤◌, length, MatchOption};
ghost use Rattle.locks.specs.Words.{mask_of};
ghost use Rattle.table.specs.Lists.{modify};
ghost use Rattle.table.specs.Flat.{second};
ghost use Rattle.table.specs.Layout.{nodes, is_open, Layout, Kept};
ghost use Rattle.rows.specs.Places.{seen_at};
ghost use Rattle.engine.specs.Way.{nodes_at, AllInside, Seen};
ghost use Rattle.engine.specs.Waits.{word_at, masks_of, SmallWords, touches_from, blocks_by, WaitsFor};
ghost use Rattle.engine.specs.Grants.{with_more, Granted};

use locks::NeedWords;
use table::layout::NODES;
use table::transactions;

// The places of the node at p and of its proper ancestors, the parent first, if t deleted none of these nodes.
// The caller lends the array, since there is no heap; by value it takes 2 KB more of the stack.
pub fn way_up<'a>(s: &[u8], t: u8, p: usize, places: &'a mut [u16; NODES]) -> Option<&'a [u16]>
    requires { (Layout s.now) × (p < length (nodes s.now)) × (length places.old ≡ 1024) }
    ensures { MatchOption result (seen_at t (nodes s.now) p ≡ false) (λ way. Seen (nodes s.now) t p way.now) }
{
    if table::deleter(s, p) == t {
        return None;
    }
    places[0] = p as u16;
    let mut count: usize = 1;
    let mut e = table::depth(s, p);
    for k in (0..p).rev() {
        let d = table::depth(s, k);
        if e <= d {
            continue;
        }
        if table::deleter(s, k) == t {
            return None;
        }
        places[count] = k as u16;
        count += 1;
        e = d;
    }
    Some(&places[..count])
}

// The set for the j-th node of the way.
fn word_at(w: NeedWords, j: usize) -> u16
    ensures { result ≡ word_at w j }
{
    match j {
        0 => w.node,
        1 => w.parent,
        _ => w.above,
    }
}

// The modes that clash with one of the parent's set, by those above it where both sets are the same, as for most steps.
fn parent_mask(w: NeedWords, above: u16) -> u16
    requires { above ≡ mask_of w.above }
    ensures { result ≡ mask_of w.parent }
{
    if w.parent == w.above {
        return above;
    }
    locks::mask(w.parent)
}

// For each set of modes the modes that clash with one of it.
fn masks(w: NeedWords) -> NeedWords
    ensures { (result ≡ masks_of w) × SmallWords result }
{
    let node = locks::mask(w.node);
    let above = locks::mask(w.above);
    let parent = parent_mask(w, above);
    NeedWords {
        node,
        parent,
        above,
        fresh: 0,
    }
}

// Whether transaction u holds a mode of the masks on the way. The places are lent, since a copy for each transaction would take as long as
// the transaction's own modes.
fn touches(s: &[u8], u: usize, masks: NeedWords, way: &[u16]) -> bool
    requires { (Layout s.now) × (1 ≤ u) × (u ≤ 16) × SmallWords masks × AllInside (nodes s.now) way.now }
    ensures { result ≡ touches_from masks 0 u (nodes_at (nodes s.now) way.now) }
{
    let held = transactions::load(s, u);
    for (j, place) in way.iter().enumerate() {
        let k = table::slot(s, usize::from(*place));
        if locks::share(held.modes[k], word_at(masks, j)) {
            return true;
        }
    }
    false
}

// Whether a step of t waits for u.
#[tactic(auto, unfolding(crate::specs::Waits::blocks_by))]
fn blocks(s: &[u8], t: usize, u: usize, masks: NeedWords, way: &[u16]) -> bool
    requires { (Layout s.now) × (1 ≤ u) × (u ≤ 16) × SmallWords masks × AllInside (nodes s.now) way.now }
    ensures { result ≡ blocks_by t masks (is_open s.now) (nodes_at (nodes s.now) way.now) u }
{
    transactions::is_open(s, u) && u != t && touches(s, u, masks, way)
}

// The set of the transactions that a step of t waits for, by what the step needs: bit u-1 for u.
pub fn waits(s: &[u8], t: usize, w: NeedWords, way: &[u16]) -> u16
    requires { (Layout s.now) × AllInside (nodes s.now) way.now }
    ensures { WaitsFor s.now t w way.now result }
{
    let masks = masks(w);
    let mut set: u16 = 0;
    for u in (1..17).rev() {
        let b = blocks(s, t, u, masks, way);
        set = locks::bit_below(set, b);
    }
    set
}

// Transaction t is granted the modes of a set on the node at i.
fn add(s: &mut [u8], t: usize, i: usize, w: u16)
    requires { (Layout s.old) × (1 ≤ t) × (t ≤ 16) × (i < length (nodes s.old)) }
    ensures { Kept s.old s.new (modify i (second (with_more t w)) (nodes s.old)) }
{
    let v = transactions::lock(s, t, i);
    transactions::set_lock(s, t, i, locks::union(v, w));
}

// Transaction t is granted what a step needs on the way.
pub fn grant(s: &mut [u8], t: usize, w: NeedWords, way: &[u16])
    requires { (Layout s.old) × (1 ≤ t) × (t ≤ 16) × AllInside (nodes s.old) way.now }
    ensures { Granted s.old s.new t w way.now }
{
    for (j, place) in way.iter().enumerate() {
        add(s, t, usize::from(*place), word_at(w, j));
    }
}
