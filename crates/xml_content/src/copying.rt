// Copies of pieces of at most 32 bytes. A piece of W to 2 * W bytes is copied by two windows of W bytes, at its start and at its end, which
// may overlap. W is known to the compiler, and each window goes through a local array, so that it is one load and one store.
ghost use Rattle.std.specs.Prelude.{◌≡◌, ◌+◌, ◌≤◌, length, take};
ghost use Rattle.xml_text.specs.Lending.{Wrote};

use xml_text::markup;

// The first W bytes.
fn load<const W: usize>(p: &[u8]) -> [u8; W]
    requires { W ≤ length p.now }
    ensures { result ≡ take W p.now }
{
    let mut window = [0; W];
    window.copy_from_slice(&p[..W]);
    window
}

// A copy of a piece of W to 2 * W bytes.
fn put_windows<const W: usize>(out: &mut [u8], p: &[u8]) -> usize
    requires { (W ≤ length p.now) × (length p.now ≤ W + W) × (length p.now ≤ length out.old) }
    ensures { Wrote p.now out.old out.new result }
{
    let at = p.len() - W;
    let first = load::<W>(p);
    let last = load::<W>(&p[at..]);
    markup::put(out, &first);
    at + markup::put(&mut out[at..], &last)
}

// A copy of a piece of at most 32 bytes. The longest are tried first; a `match` on the length tries them last.
pub fn put_content(out: &mut [u8], p: &[u8]) -> usize
    requires { (length p.now ≤ 32) × (length p.now ≤ length out.old) }
    ensures { Wrote p.now out.old out.new result }
{
    let n = p.len();
    if 16 <= n {
        put_windows::<16>(out, p)
    } else if 8 <= n {
        put_windows::<8>(out, p)
    } else if 4 <= n {
        put_windows::<4>(out, p)
    } else if 2 <= n {
        put_windows::<2>(out, p)
    } else if 1 <= n {
        put_windows::<1>(out, p)
    } else {
        0
    }
}
