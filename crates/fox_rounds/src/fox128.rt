// FOX128: its constants, its state of four words, and its round, computed without large tables (001 §2.2.2, §2.2.5). A round key is two words of 64 bits.
ghost use Rattle.std.specs.Prelude.{◌≡◌, ◌+◌, ◌*◌, ◌^◌};
ghost use Rattle.fox_layers.specs.Words.{◌⊕◌};
ghost use Rattle.fox_rounds.specs.Rounds.{f64, xor128, elmid128, or128, io128};
ghost use Rattle.fox_rounds.specs.declared.state.State.TheVariants.{Of128};

use crate::block::Block;
use crate::fox64::{io, or};
use fox_layers::diffusion::mu8;
use fox_layers::substitution::sigma8;

#[derive(Clone, Copy)]
pub struct Fox128 {
    pub ll: u32,
    pub lr: u32,
    pub rl: u32,
    pub rr: u32,
}

// `f32` on words of 64 bits. Each is one line; one function for both takes a trait of words with sigma, mu and XOR, and is no plainer.
pub fn f64(x: u64, k: u64, l: u64) -> u64
    ensures { result ≡ f64 x (k * 2 ^ 64 + l) }
{
    sigma8(mu8(sigma8(x ^ k)) ^ l) ^ k
}

// Two words of 32 bits side by side. A `From` of a tuple is no plainer.
pub fn pair(a: u32, b: u32) -> u64
    ensures { result ≡ a * 2 ^ 32 + b }
{
    u64::from(a) * 0x1_0000_0000 + u64::from(b)
}

impl Fox128 {
    // Bytes in a block.
    pub const BLOCK: usize = 16;

    // ek in bytes (001 Fig. 8).
    pub const EK: usize = 32;

    // Register steps from one round key to the next.
    pub const STEPS: u32 = 11;

    // The words have names here: a `From` of a tuple or an array is no plainer.
    pub fn new(ll: u32, lr: u32, rl: u32, rr: u32) -> Fox128
        ensures { (result.ll ≡ ll) × (result.lr ≡ lr) × (result.rl ≡ rl) × (result.rr ≡ rr) }
    {
        Fox128 { ll, lr, rl, rr }
    }

    // The round function's input: the XOR of the left words, then that of the right words.
    pub fn round_input(self) -> u64
        ensures { result ≡ (self.ll ⊕ self.lr) * 2 ^ 32 + (self.rl ⊕ self.rr) }
    {
        pair(self.ll ^ self.lr, self.rl ^ self.rr)
    }

    // The round function's value XORed into the state: its left half with the left words, its right half with the right words.
    pub fn xored(self, t: u64) -> Fox128
        ensures { result ≡ xor128 t self }
    {
        let a = (t / 0x1_0000_0000) as u32;
        let b = (t % 0x1_0000_0000) as u32;
        Fox128 {
            ll: self.ll ^ a,
            lr: self.lr ^ a,
            rl: self.rl ^ b,
            rr: self.rr ^ b,
        }
    }

    pub fn elmid(self, k: u64, l: u64) -> Fox128
        ensures { result ≡ elmid128 (k * 2 ^ 64 + l) self }
    {
        self.xored(f64(self.round_input(), k, l))
    }
}

impl Block for Fox128 {
    ghost state = { Of128 };

    fn size(self) -> usize {
        Fox128::BLOCK
    }

    fn round(self, left: u64, right: u64) -> Fox128
        ensures { result ≡ elmid128 (left * 2 ^ 64 + right) self }
    {
        self.elmid(left, right)
    }

    fn or(self) -> Fox128
        ensures { result ≡ or128 self }
    {
        Fox128 {
            ll: or(self.ll),
            lr: self.lr,
            rl: or(self.rl),
            rr: self.rr,
        }
    }

    fn io(self) -> Fox128
        ensures { result ≡ io128 self }
    {
        Fox128 {
            ll: io(self.ll),
            lr: self.lr,
            rl: io(self.rl),
            rr: self.rr,
        }
    }

    // With the definition of two blocks XORed, which has the name of the definition of a round's XOR.
    ghost use Rattle.fox_rounds.specs.Xor.{xor128 as xor_blocks128};

    fn xor(self, other: Fox128) -> Fox128
        ensures { result ≡ xor_blocks128 self other }
    {
        Fox128 {
            ll: self.ll ^ other.ll,
            lr: self.lr ^ other.lr,
            rl: self.rl ^ other.rl,
            rr: self.rr ^ other.rr,
        }
    }
}
