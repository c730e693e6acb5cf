// The lent bytes: words of 16 and 32 bits, and bytes stored, cleared and copied. Where they hold what is in specs/Encoding.antt.
ghost use Rattle.std.specs.Prelude.{◌≡◌, ℕ, ◌+◌, ◌<◌, ◌≤◌, length, get_or};
ghost use Rattle.table.specs.Passes.{left_out};
ghost use Rattle.table.specs.Layout.{word, double_word};
ghost use Rattle.table.specs.Laws.Bytes.{put_word, put_double_word, Filled};

// The first bytes of a state, and the bytes that it takes; those behind are never touched.
pub const MARK: [u8; 8] = *b"NFSTATE4";

pub const SIZE: usize = 116784;

// The most nodes.
pub const NODES: usize = 1024;

// Where the bytes hold the open transactions, how many nodes are held, and how many transactions were committed.
pub const OPEN: usize = 8;

pub const COUNT: usize = 10;

pub const COMMITS: usize = 12;

// The outline, and the bytes of an entry; the cells, and those of one.
pub const OUTLINE: usize = 16;

pub const ENTRY: usize = 8;

pub const CELLS: usize = 8208;

pub const CELL: usize = 74;

// The lock words, and the bytes of those of one transaction.
pub const LOCKS: usize = 83984;

pub const WORDS: usize = 2048;

// The remembered wait sets, a word for each transaction.
pub const SETS: usize = 116752;

// Sixteen bits from k on, low byte first.
// Words of 16 and of 32 bits have functions of their own, as they have definitions of their own (specs/Encoding.antt).
pub fn word(s: &[u8], k: usize) -> u16
    requires { k + 1 < length s.now }
    ensures { result ≡ word s.now k }
{
    u16::from_le_bytes([s[k], s[k + 1]])
}

pub fn set_word(s: &mut [u8], k: usize, v: u16)
    requires { k + 1 < length s.old }
    ensures { s.new ≡ put_word s.old k v }
{
    s[k..k + 2].copy_from_slice(&v.to_le_bytes());
}

// Thirty-two bits from k on, low byte first.
pub fn double_word(s: &[u8], k: usize) -> u32
    requires { k + 3 < length s.now }
    ensures { result ≡ double_word s.now k }
{
    u32::from_le_bytes([s[k], s[k + 1], s[k + 2], s[k + 3]])
}

pub fn set_double_word(s: &mut [u8], k: usize, v: u32)
    requires { k + 3 < length s.old }
    ensures { s.new ≡ put_double_word s.old k v }
{
    s[k..k + 4].copy_from_slice(&v.to_le_bytes());
}

// Writes b from k on. A loop, since copy_from_slice calls memmove, and the library calls nothing but memcpy and memset (docs/PANEL.md).
pub fn store(s: &mut [u8], k: usize, b: &[u8])
    requires { k + length b.now ≤ length s.old }
    ensures { Filled k (length b.now) (λ j. get_or b.now j 0) s.old s.new }
{
    for (j, x) in b.iter().enumerate() {
        s[k + j] = *x;
    }
}

// Sets n bytes from k on to 0.
pub fn clear(s: &mut [u8], k: usize, n: usize)
    requires { k + n ≤ length s.old }
    ensures { Filled k n (λ j. 0) s.old s.new }
{
    s[k..k + n].fill(0);
}

// Copies 32 bytes from k to m; the two do not overlap.
pub fn copy_32(s: &mut [u8], k: usize, m: usize)
    requires { (k + 32 ≤ length s.old) × (m + 32 ≤ length s.old) × ((j : ℕ) → j < 32 → (i : ℕ) → i < 32 → k + j ≡ m + i → ⊥) }
    ensures { Filled m 32 (λ j. get_or s.old (k + j) 0) s.old s.new }
{
    s.copy_within(k..k + 32, m);
}

// Whether a pass leaves out a node at depth d: `below` is the least depth that is left out now, 0 for none.
pub fn left_out(below: usize, d: usize) -> bool
    ensures { result ≡ left_out below d }
{
    below != 0 && below <= d
}
