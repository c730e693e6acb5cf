// What U, UU and I do to the nodes in the lent bytes, and the place of a new child.
#![tactic(auto)]

ghost use Rattle.std.specs.Prelude.{◌≡◌, map, ◌+◌, ◌<◌, ◌≤◌, length};
ghost use Rattle.tree.specs.Steps.{is_named, placed};
ghost use Rattle.locks.specs.Words.{need_words};
ghost use Rattle.locks.specs.declared.StepName.TheVariants as name;
ghost use Rattle.protocol.specs.State.{written_by};
ghost use Rattle.table.specs.Lists.{modify, insert};
ghost use Rattle.table.specs.Flat.{second};
ghost use Rattle.table.specs.Layout.{nodes, Layout, Left, Kept, header};
ghost use Rattle.rows.specs.Places.{item, children};
ghost use Rattle.rows.specs.Placing.{placed_by};
ghost use Rattle.rows.specs.Rows.{new_place};
ghost use Rattle.node_writing.specs.Writing.{new_node, counted, Counted, Renamed, RenamedRest, RenamedBelow};

use table::{Mark, outline, transactions};

// Kinds of nodes.
const ELEMENT: u32 = 2;

const ATTRIBUTE: u32 = 3;

// Contents ---------------------------------------------------------------------------

// Transaction t writes b.
pub fn write(s: &mut [u8], p: usize, t: u8, b: &[u8])
    requires { (Layout s.old) × (p < length (nodes s.old)) × (length b.now ≤ 32) × (1 ≤ t) }
    ensures { Kept s.old s.new (modify p (second (written_by t 0 b.now)) (nodes s.old)) }
{
    table::mark_written(s, p, t);
    table::set_content(s, p, b);
}

// Names ------------------------------------------------------------------------------

// Whether the node at p is an element named a.
fn is_named(s: &[u8], p: usize, a: &[u8]) -> bool
    requires { (Layout s.now) × (p < length (nodes s.now)) }
    ensures { result ≡ is_named a.now (item (nodes s.now) p).now }
{
    u32::from(table::kind(s, p)) == ELEMENT && a == table::content_bytes(s, p, 0)
}

// The node at p, if it is an element named a, is named b by t; whether it is.
fn rename(s: &mut [u8], p: usize, t: u8, a: &[u8], b: &[u8]) -> bool
    requires { (Layout s.old) × (p < length (nodes s.old)) × (length b.now ≤ 32) × (1 ≤ t) }
    ensures { Renamed s.old s.new result p t a.now b.now }
{
    let named = is_named(s, p, a);
    if named {
        write(s, p, t, b);
    }
    named
}

// Each element named a below the node at p that t sees is named b by t; how many.
fn rename_rest(s: &mut [u8], p: usize, t: u8, a: &[u8], b: &[u8]) -> usize
    requires { (Layout s.old) × (p < length (nodes s.old)) × (length b.now ≤ 32) × (1 ≤ t) }
    ensures { RenamedRest s.old s.new result p t a.now b.now }
{
    let top = table::depth(s, p);
    let mut hits: usize = 0;
    let mut hidden: u32 = 0;
    for i in p + 1..table::count(s) {
        if table::depth(s, i) <= top {
            return hits;
        }
        hidden = outline::next_below(s, i, hidden, Mark::Deleter, t);
        if hidden == 0 {
            hits += usize::from(rename(s, i, t, a, b));
        }
    }
    hits
}

// Each element named a of the subtree at p that t sees is named b by t; how many.
pub fn rename_below(s: &mut [u8], p: usize, t: u8, a: &[u8], b: &[u8]) -> usize
    requires { (Layout s.old) × (p < length (nodes s.old)) × (length b.now ≤ 32) × (1 ≤ t) }
    ensures { RenamedBelow s.old s.new result p t a.now b.now }
{
    let first = usize::from(rename(s, p, t, a, b));
    first + rename_rest(s, p, t, a, b)
}

// The place of a new child -----------------------------------------------------------

// Children, counted by one pass: how many, how many attributes, whether attributes are first, and whether their parent takes them all.
#[derive(Clone, Copy)]
pub struct Tally {
    pub count: usize,
    pub attributes: usize,
    pub ordered: bool,
    pub allowed: bool,
}

impl Tally {
    // One more child, of this kind.
    #[tactic(auto, unfolding(crate::specs::Writing::counted))]
    fn with(self, parent: u32, kind: u32) -> Tally
        requires { (self.count < 1024) × (self.attributes < 1024) }
        ensures { result ≡ counted parent kind self }
    {
        let attribute = kind == ATTRIBUTE;
        Tally {
            count: self.count + 1,
            attributes: self.attributes + usize::from(attribute),
            ordered: self.ordered && (!attribute || self.attributes == self.count),
            allowed: self.allowed && tree::takes(parent, kind),
        }
    }

    // Whether one more child, of this kind, may be the k-th.
    #[tactic(auto, unfolding(rows::specs::Placing::placed_by))]
    fn has_place(self, parent: u32, kind: u32, k: u32) -> bool
        requires { (self.count ≤ 1024) × (self.attributes ≤ 1024) }
        ensures { result ≡ placed_by parent kind k self.count self.attributes self.ordered self.allowed }
    {
        let k = k as usize;
        if k == 0 || self.count + 1 < k || !tree::takes(parent, kind) || !self.allowed {
            return false;
        }
        match (parent, kind) {
            (ELEMENT, ATTRIBUTE) => self.ordered && k <= self.attributes + 1,
            (ELEMENT, _) => self.ordered && self.attributes < k,
            _ => self.count == 0,
        }
    }
}

// The children of the node at p, of kind `parent`, that t sees.
fn tally_children(s: &[u8], p: usize, t: u8, parent: u32) -> Tally
    requires { (Layout s.now) × (p < length (nodes s.now)) }
    ensures { (Counted parent (map (λ c. c.now.kind) (children t (nodes s.now) p)) result) × (result.count ≤ 1024) }
{
    let top = table::depth(s, p);
    let mut c = Tally {
        count: 0,
        attributes: 0,
        ordered: true,
        allowed: true,
    };
    for i in p + 1..table::count(s) {
        let d = table::depth(s, i);
        if d <= top {
            return c;
        }
        if d == top + 1 && table::deleter(s, i) != t {
            c = c.with(parent, u32::from(table::kind(s, i)));
        }
    }
    c
}

// Whether a new child of a kind may be the k-th of the node at p, of the children that t sees.
pub fn fits(s: &[u8], p: usize, t: u8, kind: u32, k: u32) -> bool
    requires { (Layout s.now) × (p < length (nodes s.now)) }
    ensures { result ≡ placed (item (nodes s.now) p).now.kind kind k
        (map (λ c. c.now.kind) (children t (nodes s.now) p)) }
{
    let parent = u32::from(table::kind(s, p));
    tally_children(s, p, t, parent).has_place(parent, kind, k)
}

// The place of a new k-th child of the node at p, of the children that t sees.
pub fn new_place(s: &[u8], p: usize, t: u8, k: u32) -> usize
    requires { (Layout s.now) × (p < length (nodes s.now)) × (1 ≤ k) }
    ensures { (result ≡ new_place t k p (nodes s.now)) × (result ≤ length (nodes s.now)) }
{
    let m = table::count(s);
    let top = table::depth(s, p);
    let mut before = k - 1;
    for i in p + 1..m {
        let d = table::depth(s, i);
        if d <= top {
            return i;
        }
        if d != top + 1 {
            continue;
        }
        if before == 0 {
            return i;
        }
        if table::deleter(s, i) != t {
            before -= 1;
        }
    }
    m
}

// A node put in by t at place q and depth d, with the locks of t on it.
pub fn put(s: &mut [u8], q: usize, d: u16, m: u32, kind: u8, t: u8, b: &[u8], fresh: u16)
    requires { (Layout s.old) × (length (nodes s.old) < 1024) × (q ≤ length (nodes s.old)) × (length b.now ≤ 32)
        × (1 ≤ t) × (t ≤ 16) × (fresh ≡ (need_words name.I).fresh) }
    ensures { Left s.old s.new (header s.old)
        (insert q (d, new_node t m kind b.now) (nodes s.old)) }
{
    outline::insert(s, q, d, m, kind, t, b);
    transactions::set_lock(s, t as usize, q, fresh);
}
