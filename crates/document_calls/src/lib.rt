// Load, write and count_of, answered by the number of 64 bits. Every contract is `Contract` of traces/specs/Contract.antt.
// The parameters are those of the C interface.
#![tactic(auto)]

ghost use Rattle.traces.specs.Exchange.{Request, with_none, with_one};
ghost use Rattle.traces.specs.Contract.{Contract};

use xml_write::writer;

// The state is replaced by the document that the input stands for.
pub fn load(state: &mut [u8], xml: &[u8]) -> u64
    ensures { Contract (with_none (Request.load xml.now) state.old state.new result) }
{
    let answer = xml_load::load(state, xml);
    protocol::code(answer)
}

// The committed document is written to out.
pub fn write(state: &[u8], out: &mut [u8]) -> u64
    ensures { Contract (with_one Request.write state.now state.now out.old out.new result) }
{
    let answer = writer::write(state, out);
    protocol::code(answer)
}

// The count of node n of the committed document.
pub fn count_of(state: &[u8], n: u32) -> u64
    ensures { Contract (with_none (Request.count_of n) state.now state.now result) }
{
    let answer = counts::count_of(state, n);
    protocol::code(answer)
}
