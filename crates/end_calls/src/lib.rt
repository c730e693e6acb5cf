// Start, begin, commit and abort, answered by the number of 64 bits. Every contract is `Contract` of traces/specs/Contract.antt.
// The parameters are those of the C interface.
#![tactic(auto)]

ghost use Rattle.traces.specs.Exchange.{Request, with_none};
ghost use Rattle.traces.specs.Contract.{Contract};

// The state is set to the beginning.
pub fn start(state: &mut [u8]) -> u64
    ensures { Contract (with_none Request.start state.old state.new result) }
{
    let answer = ends::start(state);
    protocol::code(answer)
}

// Transaction t begins.
pub fn begin(state: &mut [u8], t: u32) -> u64
    ensures { Contract (with_none (Request.begin t) state.old state.new result) }
{
    let answer = ends::begin(state, t);
    protocol::code(answer)
}

// Transaction t ends, and its changes last.
pub fn commit(state: &mut [u8], t: u32) -> u64
    ensures { Contract (with_none (Request.commit t) state.old state.new result) }
{
    let answer = ends::commit(state, t);
    protocol::code(answer)
}

// Transaction t ends, and its changes are undone.
pub fn abort(state: &mut [u8], t: u32) -> u64
    ensures { Contract (with_none (Request.abort t) state.old state.new result) }
{
    let answer = ends::abort(state, t);
    protocol::code(answer)
}
