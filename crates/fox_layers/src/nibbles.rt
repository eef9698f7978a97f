// The halves of eight bytes, held by their bits: a bit of all of them is one word, so that one operation on words works on eight bytes at once, and no byte
// is used as an address or as a shift.
ghost use Rattle.std.specs.Prelude.{◌≡◌, map, ℕ, ◌+◌, ◌*◌, ◌%◌, ◌≤◌};
ghost use Rattle.fox_layers.specs.Words.{split};
ghost use Rattle.fox_layers.specs.Substitution.{or4};
ghost use Rattle.fox_layers.specs.Structs.{Held, Each, EachXor};

use std::ops::BitXor;

// The lowest bit of each byte.
pub(crate) const ONES: u64 = 0x0101_0101_0101_0101;

// Eight numbers of four bits, one for each byte of a word. b3 has the highest bit of each, as the lowest bit of its byte.
#[derive(Clone, Copy)]
pub struct Nibbles {
    pub b3: u64,
    pub b2: u64,
    pub b1: u64,
    pub b0: u64,
}

// The right halves of a word's bytes. No `From`, since a word has left halves too.
pub(crate) fn right_halves(w: u64) -> Nibbles
    ensures { Held (map (λ (x : ℕ). x % 16) (split 8 w)) result }
{
    Nibbles {
        b3: w / 8 & ONES,
        b2: w / 4 & ONES,
        b1: w / 2 & ONES,
        b0: w & ONES,
    }
}

impl BitXor for Nibbles {
    type Output = Nibbles;

    ghost bitxor_gives = { EachXor };

    fn bitxor(self, y: Nibbles) -> Nibbles
        ensures { EachXor self y result }
    {
        Nibbles {
            b3: self.b3 ^ y.b3,
            b2: self.b2 ^ y.b2,
            b1: self.b1 ^ y.b1,
            b0: self.b0 ^ y.b0,
        }
    }
}

// "or" at four bits (001 §3.1).
pub(crate) fn or4(x: Nibbles) -> Nibbles
    ensures { Each or4 x result }
{
    Nibbles {
        b3: x.b1,
        b2: x.b0,
        b1: x.b3 ^ x.b1,
        b0: x.b2 ^ x.b0,
    }
}

// The word that has the numbers as its bytes. No `From`, since that has no `requires`.
pub(crate) fn word_of(x: Nibbles) -> u64
    requires { (x.b3 ≤ 0x0101010101010101) × (x.b2 ≤ 0x0101010101010101) × (x.b1 ≤ 0x0101010101010101) × (x.b0 ≤ 0x0101010101010101) }
    ensures { result ≡ x.b3 * 8 + x.b2 * 4 + x.b1 * 2 + x.b0 }
{
    x.b3 * 8 + x.b2 * 4 + x.b1 * 2 + x.b0
}
