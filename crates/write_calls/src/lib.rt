// The steps that write, answered by the number of 64 bits. Every contract is `Contract` of traces/specs/Contract.antt.
// The parameters are those of the C interface.
#![tactic(auto)]

ghost use Rattle.tree.specs.Steps.{U, D, I, UU};
ghost use Rattle.traces.specs.Exchange.{Request, with_none};
ghost use Rattle.traces.specs.Contract.{Contract};

// U(n, bytes): node n has the bytes as its content.
pub fn update(state: &mut [u8], t: u32, n: u32, bytes: &[u8]) -> u64
    ensures { Contract (with_none (Request.step t (U n bytes.now)) state.old state.new result) }
{
    let answer = write_steps::update(state, t, n, bytes);
    protocol::code(answer)
}

// D(n): node n and all below it are deleted.
pub fn delete(state: &mut [u8], t: u32, n: u32) -> u64
    ensures { Contract (with_none (Request.step t (D n)) state.old state.new result) }
{
    let answer = write_steps::delete(state, t, n);
    protocol::code(answer)
}

// I(m, kind, bytes, n, k): a new node m becomes the k-th child of node n.
pub fn insert(state: &mut [u8], t: u32, m: u32, kind: u32, bytes: &[u8], n: u32, k: u32) -> u64
    ensures { Contract (with_none (Request.step t (I m kind bytes.now n k)) state.old state.new result) }
{
    let answer = write_steps::insert(state, t, m, kind, bytes, n, k);
    protocol::code(answer)
}

// UU(n, from, to): each element in the subtree of node n that is named so gets the other name.
pub fn rename_tree(state: &mut [u8], t: u32, n: u32, from: &[u8], to: &[u8]) -> u64
    ensures { Contract (with_none (Request.step t (UU n from.now to.now))
        state.old state.new result) }
{
    let answer = write_steps::rename_tree(state, t, n, from, to);
    protocol::code(answer)
}
