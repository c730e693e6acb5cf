// The nodes that are open while the rows are written one by one: their ends, and the row behind them.
ghost use Rattle.std.specs.Prelude.{◌≡◌, suc, ◌<◌, ◌≤◌, length, get_or, set};
ghost use Rattle.table.specs.Layout.{nodes, Layout};
ghost use Rattle.xml_text.specs.Lending.{Wrote};
ghost use Rattle.xml_measure.specs.Lines.{label_at};
ghost use Rattle.xml_measure.specs.Walk.{OnPath, OfKinds};

use crate::node::Node;
use xml_measure::measuring;
use xml_text::markup::NO_NODE;

// The last node at each depth up to `top`: its place in the state s, and its kind.
// Two arrays: one of pairs takes 1 KB more of the stack.
#[derive(Drop)]
pub struct Open<'a> {
    pub s: &'a [u8],
    pub path: [u16; 1024],
    pub kinds: [u8; 1024],
    pub top: usize,
    pub ghost laid_out: { Layout s.now },
    pub ghost on_path: { OnPath (nodes s.now) path top },
    pub ghost of_kinds: { OfKinds (nodes s.now) path kinds top },
}

impl<'a> Open<'a> {
    ghost use Rattle.xml_write.specs.Pieces.{ends_of, row_of};

    // One node is open.
    pub fn new(node: &Node<'a>) -> Self
        ensures same { result.s.now ≡ node.now.s.now }
        ensures path { get_or result.path 0 0 ≡ node.now.place }
        ensures top { result.top ≡ 0 }
    {
        let mut path = [0; 1024];
        path[0] = node.place;
        let mut kinds = [0; 1024];
        kinds[0] = node.kind;
        Open {
            s: node.s,
            path,
            kinds,
            top: 0,
        }
    }

    // The ends of the open nodes from depth top up to depth d. Inlined, since a call before each row costs writing a tenth.
    #[inline(always)]
    pub fn put_ends(&self, out: &mut [u8], d: usize) -> usize
        requires { length (ends_of self.now d) ≤ length out.old }
        ensures { Wrote (ends_of self.now d) out.old out.new result }
    {
        let mut at: usize = 0;
        let mut last = NO_NODE;
        for e in (d..self.top + 1).rev() {
            let node = Node {
                s: self.s,
                place: self.path[e],
                kind: self.kinds[e],
            };
            at += node.put_end(&mut out[at..], last);
            last = node.kind;
        }
        at
    }

    // The ends before a node of depth d, and what stands for it up to its children.
    pub fn put_row(&self, out: &mut [u8], d: usize, node: &Node) -> usize
        requires low { 1 ≤ d }
        requires high { d ≤ suc self.now.top }
        requires same { node.now.s.now ≡ self.now.s.now }
        requires room { length (row_of self.now d node.now.place) ≤ length out.old }
        ensures { Wrote (row_of self.now d node.now.place) out.old out.new result }
    {
        let above = self.kinds[d - 1];
        let previous = measuring::previous(&self.kinds, self.top, d);
        let at = self.put_ends(out, d);
        at + node.put_begin(&mut out[at..], above, previous)
    }

    // A node of depth d is the innermost that is open.
    pub fn enter(&mut self, d: usize, node: &Node)
        requires high { d ≤ suc self.old.top }
        requires deep { d < 1024 }
        requires same { node.now.s.now ≡ self.old.s.now }
        ensures same { self.new.s.now ≡ self.old.s.now }
        ensures path { self.new.path ≡ set self.old.path d node.now.place }
        ensures kinds { self.new.kinds ≡ set self.old.kinds d node.now.kind }
        ensures top { self.new.top ≡ d }
    {
        self.path[d] = node.place;
        self.kinds[d] = node.kind;
        self.top = d;
    }
}
