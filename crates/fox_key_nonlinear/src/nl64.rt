// NL64 (001 §2.3.10, Algorithm 7): the round key of FOX64 for keys of at most 16 bytes.
ghost use Rattle.std.specs.Prelude.{◌≡◌, ◌+◌, ◌*◌, ◌^◌};
ghost use Rattle.fox_layers.specs.Diffusion.{mu4};
ghost use Rattle.fox_key_mixing.specs.KeyBytes.{word_bytes};
ghost use Rattle.fox_key_nonlinear.specs.Nonlinear.{words, mix64, layers, NL64};

use crate::layers::{first_two, second_two};
use fox_key_mixing::key::Key;
use fox_rounds::block::Block;
use fox_rounds::fox64::Fox64;
use fox_rounds::fox128::pair;

// The layers up to the hashing layer.
fn layers64(d: Key<2>, flip: bool) -> [u32; 4]
    ensures { result ≡ layers 4 4 mu4 mix64 flip (words 4 4 (word_bytes 8 d.words)) }
{
    let [a, b] = d.words;
    let [x0, x1] = first_two(a);
    let [x2, x3] = first_two(b);
    let [y0, y1] = second_two(
        x1 ^ (x2 ^ x3) ^ 0xB7E1_5162,
        x0 ^ (x2 ^ x3) ^ 0x8AED_2A6A,
        flip,
    );
    let [y2, y3] = second_two(
        x0 ^ (x1 ^ x3) ^ 0xBF71_5880,
        x0 ^ (x1 ^ x2) ^ 0x9CF4_F3C7,
        flip,
    );
    [y0, y1, y2, y3]
}

// A state as one number of 64 bits. A `From` would stand in fox_rounds, where nothing else takes it.
pub(crate) fn number(x: Fox64) -> u64
    ensures { result ≡ x.l * 2 ^ 32 + x.r }
{
    pair(x.l, x.r)
}

pub fn nl64(d: Key<2>, flip: bool) -> u64
    ensures { result ≡ NL64 flip (word_bytes 8 d.words) }
{
    let [y0, y1, y2, y3] = layers64(d, flip);
    let x = Fox64 {
        l: y0 ^ y2,
        r: y1 ^ y3,
    };
    let [a, b] = d.words;
    number(x.lmid(a).or().lmid(b))
}
