// NL64h (001 §2.3.11, Algorithm 8): the round key of FOX64 for keys of more than 16 bytes.
ghost use Rattle.std.specs.Prelude.{◌≡◌, ◌/◌, ◌%◌, ◌^◌};
ghost use Rattle.fox_layers.specs.Words.{◌⊕◌};
ghost use Rattle.fox_layers.specs.Diffusion.{mu4};
ghost use Rattle.fox_key_mixing.specs.KeyBytes.{word_bytes};
ghost use Rattle.fox_key_nonlinear.specs.Nonlinear.{words, mix64h, layers, in_two, NL64h};

use crate::layers::{first_pair, halves, mixed};
use crate::nl64::number;
use fox_key_mixing::key::Key;
use fox_rounds::block::Block;
use fox_rounds::fox64::Fox64;

// The layers up to the hashing layer. The quarters that mix64h mixes are pairs of words, and so words of 64 bits here.
fn layers64h(d: Key<4>, flip: bool) -> [u64; 4]
    ensures { in_two result ≡ layers 4 8 mu4 mix64h flip (words 4 8 (word_bytes 8 d.words)) }
{
    let [a, b, c, e] = d.words;
    mixed(
        [first_pair(a), first_pair(b), first_pair(c), first_pair(e)],
        flip,
    )
}

// The XOR of a word's halves.
fn folded(w: u64) -> u32
    ensures { result ≡ w / 2 ^ 32 ⊕ w % 2 ^ 32 }
{
    let [a, b] = halves(w);
    a ^ b
}

pub fn nl64h(d: Key<4>, flip: bool) -> u64
    ensures { result ≡ NL64h flip (word_bytes 8 d.words) }
{
    let [y0, y1, y2, y3] = layers64h(d, flip);
    let x = Fox64 {
        l: folded(y0 ^ y2),
        r: folded(y1 ^ y3),
    };
    let [a, b, c, e] = d.words;
    number(x.lmid(a).or().lmid(b).or().lmid(c).or().lmid(e))
}
