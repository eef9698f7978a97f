// The layers of the non-linear parts (001 §2.3.10 to §2.3.12) on one word of 64 bits, and on two of 32 bits, which go through the substitution side by side.
ghost use Rattle.std.specs.Prelude.{◌≡◌, [], ◌∷◌, map, ◌/◌, ◌%◌, ◌^◌};
ghost use Rattle.fox_layers.specs.Words.{xor_each};
ghost use Rattle.fox_layers.specs.Substitution.{sigma};
ghost use Rattle.fox_layers.specs.Diffusion.{mu4, mu8};
ghost use Rattle.fox_key_mixing.specs.Padding.{pad};
ghost use Rattle.fox_key_nonlinear.specs.Nonlinear.{words, mix128, after_pad};

use fox_layers::diffusion::{mu4, mu8};
use fox_layers::substitution::sigma8;
use fox_rounds::fox128::pair;

// The two words of 32 bits that a word of 64 bits is made of.
pub(crate) fn halves(w: u64) -> [u32; 2]
    ensures { result ≡ w / 2 ^ 32 ∷ w % 2 ^ 32 ∷ [] }
{
    [(w / 0x1_0000_0000) as u32, (w % 0x1_0000_0000) as u32]
}

// The layers before the mixing: substitution and diffusion. Two words come as the halves of one.
pub(crate) fn first_two(w: u64) -> [u32; 2]
    ensures { result ≡ mu4 (sigma 4 (w / 2 ^ 32)) ∷ mu4 (sigma 4 (w % 2 ^ 32)) ∷ [] }
{
    let [a, b] = halves(sigma8(w));
    [mu4(a), mu4(b)]
}

// The same two words side by side again.
pub(crate) fn first_pair(w: u64) -> u64
    ensures { (result / 2 ^ 32 ≡ mu4 (sigma 4 (w / 2 ^ 32))) × (result % 2 ^ 32 ≡ mu4 (sigma 4 (w % 2 ^ 32))) }
{
    let [a, b] = first_two(w);
    pair(a, b)
}

pub(crate) fn first8(w: u64) -> u64
    ensures { result ≡ mu8 (sigma 8 w) }
{
    mu8(sigma8(w))
}

// The layers after the XOR with the pad: the flip, the substitution.
pub(crate) fn second8(w: u64, flip: bool) -> u64
    ensures { result ≡ after_pad 8 flip w }
{
    if flip {
        sigma8(w ^ 0xFFFF_FFFF_FFFF_FFFF)
    } else {
        sigma8(w)
    }
}

pub(crate) fn second_two(a: u32, b: u32, flip: bool) -> [u32; 2]
    ensures { result ≡ after_pad 4 flip a ∷ after_pad 4 flip b ∷ [] }
{
    halves(second8(pair(a, b), flip))
}

// The layers from the mixing on. Each of four words becomes the XOR of the three others, XORed with a word of the pad. Eight words of 32 bits go through them
// as four pairs.
#[inline]
pub(crate) fn mixed(x: [u64; 4], flip: bool) -> [u64; 4]
    ensures { result ≡ map (after_pad 8 flip) (xor_each (mix128 x) (words 8 4 pad)) }
{
    let [x0, x1, x2, x3] = x;
    [
        second8(x1 ^ (x2 ^ x3) ^ 0xB7E1_5162_8AED_2A6A, flip),
        second8(x0 ^ (x2 ^ x3) ^ 0xBF71_5880_9CF4_F3C7, flip),
        second8(x0 ^ (x1 ^ x3) ^ 0x62E7_160F_38B4_DA56, flip),
        second8(x0 ^ (x1 ^ x2) ^ 0xA784_D904_5190_CFEF, flip),
    ]
}
