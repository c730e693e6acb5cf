// Classes of bytes in values and texts. Letters, the most frequent, come first.
ghost use Rattle.std.specs.Prelude.{◌≡◌};
ghost use Rattle.xml.specs.Bytes.{brackets};
ghost use Rattle.xml_tokens.specs.Classes.{begins, alone, ascii_name};

// Whether a byte may begin a character of a value or a text that ends with stop, k bytes ] just before it.
#[tactic(auto, unfolding(crate::specs::Classes::begins, crate::specs::Classes::literal, tree::specs::Content::text_byte))]
pub fn may_stand(b: u8, stop: u8, k: usize) -> bool
    ensures { result ≡ begins stop k b }
{
    if b > b'>' {
        return tree::text_byte(b);
    }
    match b {
        b'&' => true,
        b'<' => false,
        b'>' => stop != b'<' || k != 2,
        _ => tree::text_byte(b),
    }
}

// Whether a byte is a character by itself, and no ampersand.
#[tactic(auto, unfolding(crate::specs::Classes::alone))]
pub fn alone(b: u8) -> bool
    ensures { result ≡ alone b }
{
    b < 128 && b != b'&'
}

// Whether a byte is a character of a name by itself.
#[tactic(auto, unfolding(crate::specs::Classes::ascii_name, tree::specs::Content::name_byte, tree::specs::Content::name_start))]
pub fn ascii_name(b: u8) -> bool
    ensures { result ≡ ascii_name b }
{
    if b >= b'a' {
        b <= b'z'
    } else {
        tree::name_byte(b)
    }
}

#[tactic(auto, unfolding(xml::specs::Bytes::brackets))]
pub fn brackets_after(k: usize, b: u8) -> usize
    ensures { result ≡ brackets k b }
{
    match (b, k) {
        (b']', 0) => 1,
        (b']', _) => 2,
        _ => 0,
    }
}
