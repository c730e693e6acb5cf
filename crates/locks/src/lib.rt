// The table of lock modes, sets of modes as 16-bit words, and what each step needs.
#![tactic(auto)]

ghost use Rattle.std.specs.Prelude.{◌≡◌, cond, ◌+◌, ◌*◌, ◌^◌, ◌<◌};
ghost use Rattle.std.specs.Int.Bits.{bit_or};
ghost use Rattle.locks.specs.Words.{clash_at, word, in_common, mask_of, need_words};
ghost use Rattle.locks.specs.Modes.{bit};

// The signs of the table: a clash or none.
const YES: bool = true;

const NO: bool = false;

// Mode against mode, in the order LT LC LR LU LW LTT LRR LUU LIR LIU LIW LICW.
const CLASH: [[bool; 12]; 12] = [
    [NO, NO, NO, NO, YES, NO, NO, NO, NO, NO, NO, NO],
    [NO, NO, NO, NO, YES, NO, NO, NO, NO, NO, NO, YES],
    [NO, NO, NO, YES, YES, NO, NO, YES, NO, NO, NO, NO],
    [NO, NO, YES, YES, YES, NO, YES, YES, NO, NO, NO, NO],
    [YES, YES, YES, YES, YES, YES, YES, YES, YES, YES, YES, YES],
    [NO, NO, NO, NO, YES, NO, NO, NO, NO, NO, YES, YES],
    [NO, NO, NO, YES, YES, NO, NO, YES, NO, YES, YES, YES],
    [NO, NO, YES, YES, YES, NO, YES, YES, YES, YES, YES, YES],
    [NO, NO, NO, NO, YES, NO, NO, YES, NO, NO, NO, NO],
    [NO, NO, NO, NO, YES, NO, YES, YES, NO, NO, NO, NO],
    [NO, NO, NO, NO, YES, YES, YES, YES, NO, NO, NO, NO],
    [NO, YES, NO, NO, YES, YES, YES, YES, NO, NO, NO, NO],
];

// Whether a set has the mode at a place.
pub fn has(w: u16, m: u16) -> bool
    requires { m < 12 }
    ensures { result ≡ bit w m }
{
    (w >> m) % 2 == 1
}

// A set with one mode more.
pub fn add(w: u16, m: u16) -> u16
    requires { m < 12 }
    ensures { result ≡ bit_or w (2 ^ m) }
{
    w | (1 << m)
}

pub fn union(v: u16, w: u16) -> u16
    ensures { result ≡ bit_or v w }
{
    v | w
}

// Whether two sets have a mode in common; the second has no bit that is no mode.
pub fn share(v: u16, w: u16) -> bool
    requires { w < 4096 }
    ensures { result ≡ in_common v w }
{
    v & w != 0
}

// A word moved up by one bit, with this bit below it.
pub fn bit_below(m: u16, b: bool) -> u16
    requires { m < 32768 }
    ensures { result ≡ cond b 1 0 + 2 * m }
{
    u16::from(b) + 2 * m
}

// The modes that clash with the mode at a place. The table is a local, so that it is laid out once and not at each lookup.
fn clashing(b: usize) -> u16
    requires { b < 12 }
    ensures { result ≡ word (λ a. clash_at a b) 12 0 }
{
    let table = CLASH;
    let mut m = 0;
    for a in (0..12).rev() {
        m = bit_below(m, table[a][b]);
    }
    m
}

// The modes that clash with some mode of a set.
pub fn mask(w: u16) -> u16
    ensures { result ≡ mask_of w }
{
    let mut m = 0;
    for b in (0..12).rev() {
        if has(w, b) {
            m = union(clashing(usize::from(b)), m);
        }
    }
    m
}

// The nine steps by name.
#[derive(Clone, Copy)]
pub enum StepName {
    T,
    C,
    R,
    U,
    D,
    I,
    TT,
    RR,
    UU,
}

// What a step needs: sets of modes on its node, on the node's parent, above that, and on a node that it inserts.
#[derive(Clone, Copy)]
pub struct NeedWords {
    pub node: u16,
    pub parent: u16,
    pub above: u16,
    pub fresh: u16,
}

// The sets of one mode: a bit each, in the order of the table.
// Sets, and no enum: the lent bytes and the needs of a step are words of modes (in_word, need_words).
const LT: u16 = 1 << 0;

const LC: u16 = 1 << 1;

const LR: u16 = 1 << 2;

const LU: u16 = 1 << 3;

const LW: u16 = 1 << 4;

const LTT: u16 = 1 << 5;

const LRR: u16 = 1 << 6;

const LUU: u16 = 1 << 7;

const LIR: u16 = 1 << 8;

const LIU: u16 = 1 << 9;

const LIW: u16 = 1 << 10;

const LICW: u16 = 1 << 11;

fn on_above(node: u16, above: u16) -> NeedWords
    ensures { result ≡ record { node = node; parent = above; above = above; fresh = 0 } }
{
    NeedWords {
        node,
        parent: above,
        above,
        fresh: 0,
    }
}

#[tactic(auto, unfolding(crate::specs::Words::need_words, crate::specs::Words::word_of))]
pub fn needed(step: StepName) -> NeedWords
    ensures { result ≡ need_words step }
{
    match step {
        StepName::T => on_above(LT, LT),
        StepName::C => on_above(LC, LT),
        StepName::R => on_above(LR, LIR),
        StepName::U => on_above(LU, LIU),
        StepName::D => NeedWords {
            node: LW,
            parent: LICW,
            above: LIW,
            fresh: 0,
        },
        StepName::I => NeedWords {
            node: LC | LICW,
            parent: LT | LIW,
            above: LT | LIW,
            fresh: LW,
        },
        StepName::TT => on_above(LTT, LT),
        StepName::RR => on_above(LRR, LIR),
        StepName::UU => on_above(LUU, LIU),
    }
}
