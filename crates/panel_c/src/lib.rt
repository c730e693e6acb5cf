// The calls of the library as C programs see them (include/noodlefen.h): each calls the function of its name in panel, and its clauses are
// those of that function. They are written twice since no crate can use a static library, and the programs use panel.
#![tactic(auto)]

ghost use Rattle.tree.specs.Steps.{T, C, R, U, D, I, TT, RR, UU};
ghost use Rattle.traces.specs.Exchange.{Request, with_none, with_one, with_two};
ghost use Rattle.traces.specs.Contract.{Contract};

// The state is set to the beginning.
#[unsafe(no_mangle)]
pub extern "C" fn noodlefen_start(state: &mut [u8]) -> u64
    ensures { Contract (with_none Request.start state.old state.new result) }
{
    panel::noodlefen_start(state)
}

// The state is replaced by the document that the input stands for.
#[unsafe(no_mangle)]
pub extern "C" fn noodlefen_load(state: &mut [u8], xml: &[u8]) -> u64
    ensures { Contract (with_none (Request.load xml.now) state.old state.new result) }
{
    panel::noodlefen_load(state, xml)
}

// The committed document is written to out.
#[unsafe(no_mangle)]
pub extern "C" fn noodlefen_write(state: &[u8], out: &mut [u8]) -> u64
    ensures { Contract (with_one Request.write state.now state.now out.old out.new result) }
{
    panel::noodlefen_write(state, out)
}

// The count of the commit that inserted node n of the committed document or last updated its content.
#[unsafe(no_mangle)]
pub extern "C" fn noodlefen_count_of(state: &[u8], n: u32) -> u64
    ensures { Contract (with_none (Request.count_of n) state.now state.now result) }
{
    panel::noodlefen_count_of(state, n)
}

// Transaction t begins.
#[unsafe(no_mangle)]
pub extern "C" fn noodlefen_begin(state: &mut [u8], t: u32) -> u64
    ensures { Contract (with_none (Request.begin t) state.old state.new result) }
{
    panel::noodlefen_begin(state, t)
}

// Transaction t ends, and its changes last.
#[unsafe(no_mangle)]
pub extern "C" fn noodlefen_commit(state: &mut [u8], t: u32) -> u64
    ensures { Contract (with_none (Request.commit t) state.old state.new result) }
{
    panel::noodlefen_commit(state, t)
}

// Transaction t ends, and its changes are undone.
#[unsafe(no_mangle)]
pub extern "C" fn noodlefen_abort(state: &mut [u8], t: u32) -> u64
    ensures { Contract (with_none (Request.abort t) state.old state.new result) }
{
    panel::noodlefen_abort(state, t)
}

// T(n): the kind and the parent of node n.
#[unsafe(no_mangle)]
pub extern "C" fn noodlefen_test(state: &mut [u8], t: u32, n: u32) -> u64
    ensures { Contract (with_none (Request.step t (T n)) state.old state.new result) }
{
    panel::noodlefen_test(state, t, n)
}

// C(n, k): the number and the kind of the k-th child of node n, or none.
#[unsafe(no_mangle)]
pub extern "C" fn noodlefen_child(state: &mut [u8], t: u32, n: u32, k: u32) -> u64
    ensures { Contract (with_none (Request.step t (C n k)) state.old state.new result) }
{
    panel::noodlefen_child(state, t, n, k)
}

// R(n): the content of node n, into out.
#[unsafe(no_mangle)]
pub extern "C" fn noodlefen_read(state: &mut [u8], t: u32, n: u32, out: &mut [u8]) -> u64
    ensures { Contract
        (with_one (Request.step t (R n)) state.old state.new out.old out.new result) }
{
    panel::noodlefen_read(state, t, n, out)
}

// U(n, bytes): node n has the bytes as its content.
#[unsafe(no_mangle)]
pub extern "C" fn noodlefen_update(state: &mut [u8], t: u32, n: u32, bytes: &[u8]) -> u64
    ensures { Contract (with_none (Request.step t (U n bytes.now)) state.old state.new result) }
{
    panel::noodlefen_update(state, t, n, bytes)
}

// D(n): node n and all below it are deleted.
#[unsafe(no_mangle)]
pub extern "C" fn noodlefen_delete(state: &mut [u8], t: u32, n: u32) -> u64
    ensures { Contract (with_none (Request.step t (D n)) state.old state.new result) }
{
    panel::noodlefen_delete(state, t, n)
}

// I(m, kind, bytes, n, k): a new node m becomes the k-th child of node n.
#[unsafe(no_mangle)]
pub extern "C" fn noodlefen_insert(
    state: &mut [u8],
    t: u32,
    m: u32,
    kind: u32,
    bytes: &[u8],
    n: u32,
    k: u32,
) -> u64
    ensures { Contract (with_none (Request.step t (I m kind bytes.now n k)) state.old state.new result) }
{
    panel::noodlefen_insert(state, t, m, kind, bytes, n, k)
}

// TT(n): the numbers of node n and all below it, in document order.
#[unsafe(no_mangle)]
pub extern "C" fn noodlefen_test_tree(state: &mut [u8], t: u32, n: u32, numbers: &mut [u8]) -> u64
    ensures { Contract
        (with_one (Request.step t (TT n)) state.old state.new numbers.old numbers.new result) }
{
    panel::noodlefen_test_tree(state, t, n, numbers)
}

// RR(n): as TT, and a cell with the content of each.
#[unsafe(no_mangle)]
pub extern "C" fn noodlefen_read_tree(
    state: &mut [u8],
    t: u32,
    n: u32,
    numbers: &mut [u8],
    cells: &mut [u8],
) -> u64
    ensures { Contract (with_two (Request.step t (RR n)) state.old state.new
        numbers.old numbers.new cells.old cells.new result) }
{
    panel::noodlefen_read_tree(state, t, n, numbers, cells)
}

// UU(n, from, to): each element in the subtree of node n that is named so gets the other name.
#[unsafe(no_mangle)]
pub extern "C" fn noodlefen_rename_tree(
    state: &mut [u8],
    t: u32,
    n: u32,
    from: &[u8],
    to: &[u8],
) -> u64
    ensures { Contract
        (with_none (Request.step t (UU n from.now to.now)) state.old state.new result) }
{
    panel::noodlefen_rename_tree(state, t, n, from, to)
}
