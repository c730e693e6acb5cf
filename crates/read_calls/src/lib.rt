// The steps that read, answered by the number of 64 bits. Every contract is `Contract` of traces/specs/Contract.antt.
// The parameters are those of the C interface.
#![tactic(auto)]

ghost use Rattle.tree.specs.Steps.{T, C, R, TT, RR};
ghost use Rattle.traces.specs.Exchange.{Request, with_none, with_one, with_two};
ghost use Rattle.traces.specs.Contract.{Contract};

// T(n): the kind and the parent of node n.
pub fn test(state: &mut [u8], t: u32, n: u32) -> u64
    ensures { Contract (with_none (Request.step t (T n)) state.old state.new result) }
{
    let answer = engine::test(state, t, n);
    protocol::code(answer)
}

// C(n, k): the number and the kind of the k-th child of node n, or none.
pub fn child(state: &mut [u8], t: u32, n: u32, k: u32) -> u64
    ensures { Contract (with_none (Request.step t (C n k)) state.old state.new result) }
{
    let answer = read_steps::child(state, t, n, k);
    protocol::code(answer)
}

// R(n): the content of node n, into out.
pub fn read(state: &mut [u8], t: u32, n: u32, out: &mut [u8]) -> u64
    ensures { Contract (with_one (Request.step t (R n)) state.old state.new
        out.old out.new result) }
{
    let answer = read_steps::read(state, t, n, out);
    protocol::code(answer)
}

// TT(n): the numbers of node n and all below it, in document order.
pub fn test_tree(state: &mut [u8], t: u32, n: u32, numbers: &mut [u8]) -> u64
    ensures { Contract (with_one (Request.step t (TT n)) state.old state.new
        numbers.old numbers.new result) }
{
    let answer = read_steps::test_tree(state, t, n, numbers);
    protocol::code(answer)
}

// RR(n): as TT, and a cell with the content of each.
pub fn read_tree(state: &mut [u8], t: u32, n: u32, numbers: &mut [u8], cells: &mut [u8]) -> u64
    ensures { Contract (with_two (Request.step t (RR n)) state.old state.new
        numbers.old numbers.new cells.old cells.new result) }
{
    let answer = read_steps::read_tree(state, t, n, numbers, cells);
    protocol::code(answer)
}
