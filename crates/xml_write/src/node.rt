// What stands for one node of the committed document: each piece is put at the front of the lent bytes, and answers its length.
ghost use Rattle.std.specs.Prelude.{◌≡◌, ◌++◌, ◌<◌, ◌≤◌, length};
ghost use Rattle.xml.specs.Writing.{escaped};
ghost use Rattle.table.specs.Layout.{nodes, Layout};
ghost use Rattle.rows.specs.Places.{depth};
ghost use Rattle.xml_text.specs.Rows.{tag_end, begin, end};
ghost use Rattle.xml_text.specs.Lending.{Wrote};
ghost use Rattle.xml_measure.specs.Lines.{label_at};
ghost use Rattle.xml_write.specs.Texts.{of_kind, opening};

use xml_content::{copying, escaping};
use xml_measure::committed;
use xml_text::markup::{self, ATTRIBUTE, ELEMENT};

// The node at a place of the state s, with its kind.
#[derive(Clone, Copy)]
pub struct Node<'a> {
    pub s: &'a [u8],
    pub place: u16,
    pub kind: u8,
    pub ghost laid_out: { Layout s.now },
    pub ghost inside: { place < length (nodes s.now) },
    pub ghost of_kind: { kind ≡ (label_at (nodes s.now) place).kind },
}

impl<'a> Node<'a> {
    ghost use Rattle.xml_write.specs.Pieces.{label_of};

    // The node at this place.
    pub fn at(s: &'a [u8], place: u16) -> Self
        requires { (Layout s.now) × (place < length (nodes s.now)) }
        ensures { (result.s.now ≡ s.now) × (result.place ≡ place) }
    {
        Node {
            s,
            place,
            kind: table::kind(s, usize::from(place)),
        }
    }

    // How deep it is; the document is at 0.
    pub fn depth(&self) -> usize
        ensures { result ≡ depth (nodes self.now.s.now) self.now.place }
    {
        usize::from(table::depth(self.s, usize::from(self.place)))
    }

    // Its content.
    fn put_content(&self, out: &mut [u8]) -> usize
        requires { length (label_of self.now).content ≤ length out.old }
        ensures { Wrote (label_of self.now).content out.old out.new result }
    {
        copying::put_content(out, committed::content(self.s, usize::from(self.place)))
    }

    // The same with references, in a value or in a text.
    fn put_escaped(&self, out: &mut [u8], value: bool) -> usize
        requires { length (escaped value (label_of self.now).content) ≤ length out.old }
        ensures { Wrote (escaped value (label_of self.now).content) out.old out.new result }
    {
        let p = usize::from(self.place);
        let window = committed::window(self.s, p);
        escaping::put_escaped(out, window, committed::size(self.s, p), value)
    }

    // Its name behind a prefix.
    fn put_name(&self, out: &mut [u8], prefix: &[u8]) -> usize
        requires { length (prefix.now ++ (label_of self.now).content) ≤ length out.old }
        ensures { Wrote (prefix.now ++ (label_of self.now).content) out.old out.new result }
    {
        let at = markup::put(out, prefix);
        at + self.put_content(&mut out[at..])
    }

    // Its name between a prefix and a suffix.
    fn put_between(&self, out: &mut [u8], prefix: &[u8], suffix: &[u8]) -> usize
        requires { length ((prefix.now ++ (label_of self.now).content) ++ suffix.now) ≤ length out.old }
        ensures { Wrote ((prefix.now ++ (label_of self.now).content) ++ suffix.now) out.old out.new result }
    {
        let at = self.put_name(out, prefix);
        at + markup::put(&mut out[at..], suffix)
    }

    // The beginning of an element's start tag, or a text; the parent is of kind `above`.
    #[tactic(auto, unfolding(crate::specs::Texts::opening))]
    fn put_opening(&self, out: &mut [u8], above: u8) -> usize
        requires { length (opening (of_kind above) (label_of self.now)) ≤ length out.old }
        ensures { Wrote (opening (of_kind above) (label_of self.now)) out.old out.new result }
    {
        if self.kind == ELEMENT {
            self.put_name(out, b"<")
        } else {
            self.put_escaped(out, above == ATTRIBUTE)
        }
    }

    // What stands for it up to its children; its parent is of kind `above`, its previous sibling of kind `previous`.
    #[tactic(auto, unfolding(xml_text::specs::Rows::begin, crate::specs::Texts::opening))]
    pub fn put_begin(&self, out: &mut [u8], above: u8, previous: u8) -> usize
        requires { length (begin (of_kind above) previous (label_of self.now)) ≤ length out.old }
        ensures { Wrote (begin (of_kind above) previous (label_of self.now)) out.old out.new result }
    {
        if self.kind == ATTRIBUTE {
            return self.put_between(out, b" ", b"=\"");
        }
        let at = put_tag_end(out, above, previous);
        at + self.put_opening(&mut out[at..], above)
    }

    // What stands for it behind its children, the last of which is of kind `last`.
    #[tactic(auto, unfolding(xml_text::specs::Rows::end))]
    pub fn put_end(&self, out: &mut [u8], last: u8) -> usize
        requires { length (end (label_of self.now) last) ≤ length out.old }
        ensures { Wrote (end (label_of self.now) last) out.old out.new result }
    {
        match self.kind {
            ATTRIBUTE => markup::put(out, b"\""),
            ELEMENT if markup::in_start_tag(last) => markup::put(out, b"/>"),
            ELEMENT => self.put_between(out, b"</", b">"),
            _ => 0,
        }
    }
}

// The end of the parent's start tag, before its first child that is no attribute; the parent is of kind `above`.
#[tactic(auto, unfolding(xml_text::specs::Rows::tag_end))]
fn put_tag_end(out: &mut [u8], above: u8, previous: u8) -> usize
    requires { length (tag_end (of_kind above) previous) ≤ length out.old }
    ensures { Wrote (tag_end (of_kind above) previous) out.old out.new result }
{
    if above == ELEMENT && markup::in_start_tag(previous) {
        markup::put(out, b">")
    } else {
        0
    }
}
