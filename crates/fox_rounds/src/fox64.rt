// FOX64: its constants, its state of two words, and its round, computed without large tables (001 §2.2.1, §2.2.3, §2.2.4).
ghost use Rattle.std.specs.Prelude.{◌≡◌};
ghost use Rattle.fox_rounds.specs.Rounds.{or, io, f32, lmid64, or64, io64};
ghost use Rattle.fox_rounds.specs.Xor.{xor64};
ghost use Rattle.fox_rounds.specs.declared.state.State.TheVariants.{Of64};

use crate::block::Block;
use fox_layers::diffusion::mu4;
use fox_layers::substitution::sigma4;

#[derive(Clone, Copy)]
pub struct Fox64 {
    pub l: u32,
    pub r: u32,
}

// "or" (001 §2.2.3): the halves exchanged, which is one rotation, and the right half XORed with the new left half.
pub fn or(w: u32) -> u32
    ensures { result ≡ or w }
{
    let p = w / 0x1_0000;
    let q = w % 0x1_0000;
    (q * 0x1_0000 + p) ^ q
}

// "io", which undoes "or" (001 §2.2.3).
pub fn io(w: u32) -> u32
    ensures { result ≡ io w }
{
    let p = w / 0x1_0000;
    let q = w % 0x1_0000;
    (p ^ q) * 0x1_0000 + p
}

// The round function. FOX128's, `f64`, says why it stands beside this one.
pub fn f32(x: u32, rk: u64) -> u32
    ensures { result ≡ f32 x rk }
{
    let k = (rk / 0x1_0000_0000) as u32;
    let l = (rk % 0x1_0000_0000) as u32;
    sigma4(mu4(sigma4(x ^ k)) ^ l) ^ k
}

impl Fox64 {
    // Bytes in a block.
    pub const BLOCK: usize = 8;

    // ek in bytes (001 Fig. 8), for keys of at most 16 bytes and for longer ones.
    pub const EK: usize = 16;

    pub const EK_LONG: usize = 32;

    // Register steps from one round key to the next, likewise.
    pub const STEPS: u32 = 6;

    pub const STEPS_LONG: u32 = 11;

    // The words have names here: a `From` of a tuple or an array is no plainer.
    pub fn new(l: u32, r: u32) -> Fox64
        ensures { (result.l ≡ l) × (result.r ≡ r) }
    {
        Fox64 { l, r }
    }

    pub fn lmid(self, rk: u64) -> Fox64
        ensures { result ≡ lmid64 rk self }
    {
        let t = f32(self.l ^ self.r, rk);
        Fox64 {
            l: self.l ^ t,
            r: self.r ^ t,
        }
    }
}

impl Block for Fox64 {
    ghost state = { Of64 };

    fn size(self) -> usize {
        Fox64::BLOCK
    }

    fn round(self, _left: u64, right: u64) -> Fox64
        ensures { result ≡ lmid64 right self }
    {
        self.lmid(right)
    }

    fn or(self) -> Fox64
        ensures { result ≡ or64 self }
    {
        Fox64 {
            l: or(self.l),
            r: self.r,
        }
    }

    fn io(self) -> Fox64
        ensures { result ≡ io64 self }
    {
        Fox64 {
            l: io(self.l),
            r: self.r,
        }
    }

    fn xor(self, other: Fox64) -> Fox64
        ensures { result ≡ xor64 self other }
    {
        Fox64 {
            l: self.l ^ other.l,
            r: self.r ^ other.r,
        }
    }
}
