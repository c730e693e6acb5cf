// Inputs that are too long to be written out.

const MOST_CHILDREN: usize = 1023;

// An element with so many empty elements in it, or nothing where it has no room. The end tag has as many bytes as one of these.
pub fn element(input: &mut [u8; 4099], children: usize) -> &[u8] {
    if MOST_CHILDREN < children {
        return &[];
    }
    let (start, rest) = input.split_at_mut(3);
    start.copy_from_slice(b"<a>");
    for (i, piece) in rest.chunks_exact_mut(4).enumerate() {
        piece.copy_from_slice(if i < children { b"<b/>" } else { b"</a>" });
    }
    &input[..7 + 4 * children]
}
