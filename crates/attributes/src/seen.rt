// The attribute codes that came before. No served code is above 15.
ghost use Rattle.std.specs.Prelude.{◌≡◌};
ghost use Rattle.wire.specs.Bits.{bit};
ghost use Rattle.attributes.specs.Private.{with_bit};

// A set of codes, each as a bit: one word holds it, with no heap.
#[derive(Clone, Copy, Debug, PartialEq, Eq)]
pub struct Seen {
    pub bits: u16,
}

// The codes that have a bit.
const BITS: u8 = u16::BITS as u8;

// Whether a code is in the set of these bits.
pub fn has(set: u16, code: u8) -> bool
    ensures { result ≡ bit set code }
{
    code < BITS && (set >> code) & 1 == 1
}

// The set of these bits with a code in it; a code that has no bit is left out.
#[tactic(auto, using(crate::proofs::Bits::with_high, crate::proofs::Bits::with_low, crate::proofs::Bits::shifted))]
pub fn with(set: u16, code: u8) -> u16
    ensures { result ≡ with_bit set code }
{
    if code < BITS { set | 1 << code } else { set }
}

impl Seen {
    // The set with no codes.
    pub const EMPTY: Seen = Seen { bits: 0 };

    // Whether a code is in the set.
    pub fn contains(self, code: u8) -> bool
        ensures { result ≡ bit self.bits code }
    {
        has(self.bits, code)
    }

    // Puts a code into the set.
    pub fn insert(&mut self, code: u8)
        ensures { self.new.bits ≡ with_bit self.old.bits code }
    {
        self.bits = with(self.bits, code);
    }
}
