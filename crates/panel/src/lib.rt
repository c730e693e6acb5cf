// The calls of the library, under the names of include/noodlefen.h; the crate panel_c exports them to C. Every contract is `Contract` of
// traces/specs/Contract.antt. The parameters are those of the C interface: lent bytes and numbers.
#![tactic(auto)]

ghost use Rattle.tree.specs.Steps.{T, C, R, U, D, I, TT, RR, UU};
ghost use Rattle.traces.specs.Exchange.{Request, with_none, with_one, with_two};
ghost use Rattle.traces.specs.Contract.{Contract};

// The state is set to the beginning.
pub fn noodlefen_start(state: &mut [u8]) -> u64
    ensures { Contract (with_none Request.start state.old state.new result) }
{
    end_calls::start(state)
}

// The state is replaced by the document that the input stands for.
pub fn noodlefen_load(state: &mut [u8], xml: &[u8]) -> u64
    ensures { Contract (with_none (Request.load xml.now) state.old state.new result) }
{
    document_calls::load(state, xml)
}

// The committed document is written to out.
pub fn noodlefen_write(state: &[u8], out: &mut [u8]) -> u64
    ensures { Contract (with_one Request.write state.now state.now out.old out.new result) }
{
    document_calls::write(state, out)
}

// The count of the commit that inserted node n of the committed document or last updated its content.
pub fn noodlefen_count_of(state: &[u8], n: u32) -> u64
    ensures { Contract (with_none (Request.count_of n) state.now state.now result) }
{
    document_calls::count_of(state, n)
}

// Transaction t begins.
pub fn noodlefen_begin(state: &mut [u8], t: u32) -> u64
    ensures { Contract (with_none (Request.begin t) state.old state.new result) }
{
    end_calls::begin(state, t)
}

// Transaction t ends, and its changes last.
pub fn noodlefen_commit(state: &mut [u8], t: u32) -> u64
    ensures { Contract (with_none (Request.commit t) state.old state.new result) }
{
    end_calls::commit(state, t)
}

// Transaction t ends, and its changes are undone.
pub fn noodlefen_abort(state: &mut [u8], t: u32) -> u64
    ensures { Contract (with_none (Request.abort t) state.old state.new result) }
{
    end_calls::abort(state, t)
}

// T(n): the kind and the parent of node n.
pub fn noodlefen_test(state: &mut [u8], t: u32, n: u32) -> u64
    ensures { Contract (with_none (Request.step t (T n)) state.old state.new result) }
{
    read_calls::test(state, t, n)
}

// C(n, k): the number and the kind of the k-th child of node n, or none.
pub fn noodlefen_child(state: &mut [u8], t: u32, n: u32, k: u32) -> u64
    ensures { Contract (with_none (Request.step t (C n k)) state.old state.new result) }
{
    read_calls::child(state, t, n, k)
}

// R(n): the content of node n, into out.
pub fn noodlefen_read(state: &mut [u8], t: u32, n: u32, out: &mut [u8]) -> u64
    ensures { Contract
        (with_one (Request.step t (R n)) state.old state.new out.old out.new result) }
{
    read_calls::read(state, t, n, out)
}

// U(n, bytes): node n has the bytes as its content.
pub fn noodlefen_update(state: &mut [u8], t: u32, n: u32, bytes: &[u8]) -> u64
    ensures { Contract (with_none (Request.step t (U n bytes.now)) state.old state.new result) }
{
    write_calls::update(state, t, n, bytes)
}

// D(n): node n and all below it are deleted.
pub fn noodlefen_delete(state: &mut [u8], t: u32, n: u32) -> u64
    ensures { Contract (with_none (Request.step t (D n)) state.old state.new result) }
{
    write_calls::delete(state, t, n)
}

// I(m, kind, bytes, n, k): a new node m becomes the k-th child of node n.
pub fn noodlefen_insert(
    state: &mut [u8],
    t: u32,
    m: u32,
    kind: u32,
    bytes: &[u8],
    n: u32,
    k: u32,
) -> u64
    ensures { Contract (with_none (Request.step t (I m kind bytes.now n k)) state.old state.new result) }
{
    write_calls::insert(state, t, m, kind, bytes, n, k)
}

// TT(n): the numbers of node n and all below it, in document order.
pub fn noodlefen_test_tree(state: &mut [u8], t: u32, n: u32, numbers: &mut [u8]) -> u64
    ensures { Contract
        (with_one (Request.step t (TT n)) state.old state.new numbers.old numbers.new result) }
{
    read_calls::test_tree(state, t, n, numbers)
}

// RR(n): as TT, and a cell with the content of each.
pub fn noodlefen_read_tree(
    state: &mut [u8],
    t: u32,
    n: u32,
    numbers: &mut [u8],
    cells: &mut [u8],
) -> u64
    ensures { Contract (with_two (Request.step t (RR n)) state.old state.new
        numbers.old numbers.new cells.old cells.new result) }
{
    read_calls::read_tree(state, t, n, numbers, cells)
}

// UU(n, from, to): each element in the subtree of node n that is named so gets the other name.
pub fn noodlefen_rename_tree(state: &mut [u8], t: u32, n: u32, from: &[u8], to: &[u8]) -> u64
    ensures { Contract
        (with_none (Request.step t (UU n from.now to.now)) state.old state.new result) }
{
    write_calls::rename_tree(state, t, n, from, to)
}
