// NL128 (001 §2.3.12, Algorithm 9): the round key of FOX128.
ghost use Rattle.std.specs.Prelude.{◌≡◌, ◌+◌, ◌*◌, ◌^◌};
ghost use Rattle.fox_layers.specs.Diffusion.{mu8};
ghost use Rattle.fox_key_mixing.specs.KeyBytes.{word_bytes};
ghost use Rattle.fox_key_nonlinear.specs.Nonlinear.{words, mix128, layers, parts128, NL128};

use crate::layers::{first8, halves, mixed};
use fox_key_mixing::key::Key;
use fox_rounds::block::Block;
use fox_rounds::fox128::{Fox128, pair};

// A round key of 128 bits.
#[derive(Clone, Copy)]
pub struct Key128 {
    pub left: u64,
    pub right: u64,
}

// The layers up to the hashing layer.
fn layers128(d: Key<4>, flip: bool) -> [u64; 4]
    ensures { result ≡ layers 8 4 mu8 mix128 flip (words 8 4 (word_bytes 8 d.words)) }
{
    let [a, b, c, e] = d.words;
    mixed([first8(a), first8(b), first8(c), first8(e)], flip)
}

// Two words of 64 bits, as the hashing layer gives them, as the state of FOX128. A `From` would stand in fox_rounds, where nothing else takes it.
fn state(a: u64, b: u64) -> Fox128
    ensures { result ≡ parts128 a b }
{
    let [ll, lr] = halves(a);
    let [rl, rr] = halves(b);
    Fox128 { ll, lr, rl, rr }
}

pub fn nl128(d: Key<4>, flip: bool) -> Key128
    ensures { result.left * 2 ^ 64 + result.right ≡ NL128 flip (word_bytes 8 d.words) }
{
    let [y0, y1, y2, y3] = layers128(d, flip);
    let x = state(y0 ^ y2, y1 ^ y3);
    let [a, b, c, e] = d.words;
    let x = x.elmid(a, b).or().elmid(c, e);
    Key128 {
        left: pair(x.ll, x.lr),
        right: pair(x.rl, x.rr),
    }
}
