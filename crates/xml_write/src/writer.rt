// Write: the committed document as an XML text. Each piece of markup goes behind the last, into the rest of the lent bytes.
ghost use Rattle.std.specs.Prelude.{◌≤◌, length};
ghost use Rattle.table.specs.Layout.{nodes, Layout};
ghost use Rattle.xml_text.specs.Rows.{body, written_rows};
ghost use Rattle.xml_text.specs.Lending.{Wrote};
ghost use Rattle.xml_measure.specs.Lines.{lines, Listed};
ghost use Rattle.xml_write.specs.Contract.{Written};

use crate::node::Node;
use crate::open::Open;
use protocol::{Answer, Cause};
use xml_measure::committed::{self, Rows};
use xml_measure::measuring;
use xml_text::markup;

// What stands for the rows below the document's.
fn put_body(out: &mut [u8], s: &[u8], rows: &Rows) -> usize
    requires { (Layout s.now) × (Listed (nodes s.now) rows.now.places rows.now.count)
        × (length (body (lines (nodes s.now) rows.now.places rows.now.count)) ≤ length out.old) }
    ensures { Wrote (body (lines (nodes s.now) rows.now.places rows.now.count)) out.old out.new result }
{
    let mut open = Open::new(&Node::at(s, rows.places[0]));
    let mut at: usize = 0;
    for here in &rows.places[1..rows.count] {
        let node = Node::at(s, *here);
        let d = node.depth();
        at += open.put_row(&mut out[at..], d, &node);
        open.enter(d, &node);
    }
    at + open.put_ends(&mut out[at..], 0)
}

// What stands for the rows of the document. Not inlined, since write would take 1 KB more of the stack.
#[inline(never)]
#[tactic(auto, unfolding(xml_text::specs::Rows::written_rows))]
fn put_document(out: &mut [u8], s: &[u8], rows: &Rows) -> usize
    requires { (Layout s.now) × (Listed (nodes s.now) rows.now.places rows.now.count)
        × (length (written_rows (lines (nodes s.now) rows.now.places rows.now.count)) ≤ length out.old) }
    ensures { Wrote (written_rows (lines (nodes s.now) rows.now.places rows.now.count)) out.old out.new result }
{
    let at = markup::put_prolog(out);
    at + put_body(&mut out[at..], s, rows)
}

// The call -----------------------------------------------------------------------------

// The committed document, written to the lent bytes.
pub fn write(s: &[u8], out: &mut [u8]) -> Answer
    ensures { Written s.now out.old out.new result }
{
    if !form::formed(s) {
        return Answer::from(Cause::ShortBuffer);
    }
    let rows = committed::select(s);
    let Some(n) = measuring::measure(s, &rows) else {
        return Answer::from(Cause::NotExpressible);
    };
    if out.len() < n {
        return Answer::from(Cause::ShortBuffer);
    }
    put_document(out, s, &rows);
    Answer::Count(n as u32)
}
