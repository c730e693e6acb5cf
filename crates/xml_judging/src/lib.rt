// Judges a whole input by the grammar and the limits: the declaration, the root element, what is behind it, the length.
#![tactic(auto)]

ghost use Rattle.std.specs.Prelude.{◌≡◌, true, ◌+◌, ◌-◌, ◌≤◌, length};
ghost use Rattle.xml.specs.Laws.Automaton.{at_start, epilog, closed};
ghost use Rattle.xml.specs.Laws.Monitor.{monitoring};
ghost use Rattle.xml.specs.Laws.Judge.{judgement};
ghost use Rattle.xml.specs.Laws.Scan.{scan, limited};
ghost use Rattle.xml.specs.Laws.Goes.{Leads};
ghost use Rattle.xml_reader.specs.Elements.{stack, Named};
ghost use Rattle.xml_reader.specs.Children.{Beginning, Deep};
ghost use Rattle.xml_judging.specs.Judged.{verdict};
ghost use Rattle.xml_judging.specs.Laws.Element.{Rooted};

use protocol::Cause;
use xml_reader::{Inside, Tag, children, start, start_tags};
use xml_tokens::{Cursor, Refusal};

// Behind the root element, to the end of the input: how many nodes more there could be.
fn behind_root(c: Cursor, s: &[u8], spare: usize) -> Result<usize, Refusal>
    requires { c.at ≤ length s.now }
    ensures { Leads true s.now epilog spare c.at (verdict result) }
{
    let end = c.blanks(s);
    let at = end.at;
    if at < s.len() {
        return Err(Refusal::new(Cause::NotOfGrammar, at));
    }
    Ok(spare)
}

// The content of the root element, and what is behind it.
fn root_content(
    c: Cursor,
    s: &[u8],
    names: &mut [u16; 1024],
    spare: usize,
) -> Result<usize, Refusal>
    requires { Beginning s.now c.at × Deep s.now names.old 1 spare }
    ensures { Leads true s.now (closed (stack s.now names.old 0 1)) spare c.at (verdict result) }
{
    let mut inside = Inside {
        cursor: c,
        depth: 1,
        spare,
    };
    while 0 < inside.depth {
        inside = children::child(inside, s, names)?;
    }
    behind_root(inside.cursor, s, inside.spare)
}

// The root element from the first byte of its name on, and what is behind it.
fn root_element(c: Cursor, s: &[u8], spare: usize) -> Result<usize, Refusal>
    requires { Named s.now c.at × (2 + spare ≤ 1024) × (length s.now ≤ 65537) }
    ensures { Rooted s.now c.at spare (verdict result) }
{
    let mut names = [0u16; 1024];
    let name = Inside {
        cursor: c,
        depth: 0,
        spare,
    };
    match start_tags::start_tag(name, s, &mut names)? {
        Tag::Emptied(read) => behind_root(read.behind, s, read.spare),
        Tag::Opened(read) => root_content(read.behind, s, &mut names, read.spare),
    }
}

// An input of at most 65,537 bytes, without the limit of 65,536; `limit` is that of nodes. Node 0 and the root element are always there.
fn unlimited(s: &[u8], limit: usize) -> Result<usize, Refusal>
    requires { (2 ≤ limit) × (limit ≤ 1024) × (length s.now ≤ 65537) }
    ensures { scan at_start monitoring (limit - 1) 0 0 0 s.now ≡ verdict result }
{
    let c = start::find_root(s)?;
    let at = c.at;
    if !tree::characters::begins(s[at], false) {
        return Err(Refusal::new(Cause::NotOfGrammar, at));
    }
    root_element(c, s, limit - 2)
}

// The limit of 65,536 bytes, on what is said of the first 65,537; long tells whether there are so many.
// long says what the input is, as in limited of crate xml; it is no choice between two steps.
fn limit_input(long: bool, said: Result<usize, Refusal>) -> Result<usize, Refusal>
    ensures { limited long (verdict said) ≡ verdict result }
{
    match said {
        Ok(left) if !long => Ok(left),
        Err(refusal) if refusal.offset < 65536 => Err(refusal),
        _ => Err(Refusal::new(Cause::NotOfGrammar, 65536)),
    }
}

// What load says of an input where `limit` nodes may be held.
pub fn judge(x: &[u8], limit: usize) -> Result<usize, Refusal>
    requires { (2 ≤ limit) × (limit ≤ 1024) }
    ensures { judgement limit x.now ≡ verdict result }
{
    if x.len() > 65536 {
        let first = &x[..65537];
        return limit_input(true, unlimited(first, limit));
    }
    limit_input(false, unlimited(x, limit))
}
