// Contents with references: their length, and how they are put at the front of the lent bytes. A content is the first n of the 32 bytes w
// that it may take: a loop over all of these has no branch and a fixed end, so that it takes several bytes at once. The bytes behind it may
// be anything; they can only cost time.
ghost use Rattle.std.specs.Prelude.{◌≡◌, true, ◌≤◌, length, take};
ghost use Rattle.xml.specs.Writing.{escaped};
ghost use Rattle.xml_text.specs.Lending.{Wrote};

use crate::copying;
use xml_text::markup;

// Lengths ----------------------------------------------------------------------------

// The length of p, with references.
fn whole_length(p: &[u8], value: bool) -> u8
    requires { length p.now ≤ 32 }
    ensures { (result ≡ length (escaped value p.now)) × (result ≤ 192) }
{
    p.iter().map(|b| markup::byte_length(*b, value)).sum()
}

// The length of the first n bytes, with references.
fn first_length(w: &[u8], n: usize, value: bool) -> u8
    requires { length w.now ≡ 32 }
    ensures { (result ≡ length (escaped value (take n w.now))) × (result ≤ 192) }
{
    w[..32]
        .iter()
        .enumerate()
        .map(|(i, b)| u8::from(i < n) * markup::byte_length(*b, value))
        .sum()
}

// The same, sooner where no reference stands for any of the 32.
pub fn escaped_length(w: &[u8], n: usize, value: bool) -> u8
    requires { (length w.now ≡ 32) × (n ≤ 32) }
    ensures { (result ≡ length (escaped value (take n w.now))) × (result ≤ 192) }
{
    if whole_length(&w[..32], value) == 32 {
        return n as u8;
    }
    first_length(w, n, value)
}

// Output -----------------------------------------------------------------------------

// The bytes of p with references, one by one.
fn put_each(out: &mut [u8], p: &[u8], value: bool) -> usize
    requires { length (escaped value p.now) ≤ length out.old }
    ensures { Wrote (escaped value p.now) out.old out.new result }
{
    let mut at: usize = 0;
    for b in p {
        at += markup::put_byte(&mut out[at..], *b, value);
    }
    at
}

// The first n of sixteen bytes with references; they are copied as they are where no reference stands for any of the sixteen.
fn put_half(out: &mut [u8], half: &[u8], n: usize, value: bool) -> usize
    requires { (length half.now ≡ 16) × (n ≤ 16) × (length (escaped value (take n half.now)) ≤ length out.old) }
    ensures { Wrote (escaped value (take n half.now)) out.old out.new result }
{
    if whole_length(&half[..16], value) == 16 {
        copying::put_content(out, &half[..n])
    } else {
        put_each(out, &half[..n], value)
    }
}

// The first n of 32 bytes with references; they are copied as they are where no reference stands for any of the 32, or of their half.
pub fn put_escaped(out: &mut [u8], w: &[u8], n: usize, value: bool) -> usize
    requires { (length w.now ≡ 32) × (n ≤ 32) × (length (escaped value (take n w.now)) ≤ length out.old) }
    ensures { Wrote (escaped value (take n w.now)) out.old out.new result }
{
    if whole_length(&w[..32], value) == 32 {
        return copying::put_content(out, &w[..n]);
    }
    if n <= 16 {
        return put_half(out, &w[..16], n, value);
    }
    let at = put_half(out, &w[..16], 16, value);
    at + put_half(&mut out[at..], &w[16..], n - 16, value)
}
