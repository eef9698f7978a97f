// The substitution (001 §2.2.6): the S-box in three rounds (001 §3.1), on the halves of eight bytes at once.
ghost use Rattle.std.specs.Prelude.{◌≡◌};
ghost use Rattle.fox_layers.specs.Substitution.{sbox, sigma};

use crate::boxes::{s1, s2, s3};
use crate::nibbles::{or4, right_halves, word_of};

pub fn sigma8(w: u64) -> u64
    ensures { result ≡ sigma 8 w }
{
    // The left halves are the right halves of the word moved by four bits.
    let l = right_halves(w / 16);
    let r = right_halves(w);
    let t = s1(l ^ r);
    let l = or4(l ^ t);
    let r = r ^ t;
    let t = s2(l ^ r);
    let l = or4(l ^ t);
    let r = r ^ t;
    let t = s3(l ^ r);
    let l = l ^ t;
    let r = r ^ t;
    word_of(l) * 16 + word_of(r)
}

// On four bytes, by the same function.
pub fn sigma4(w: u32) -> u32
    ensures { result ≡ sigma 4 w }
{
    (sigma8(w as u64) % 0x1_0000_0000) as u32
}

pub fn sbox(x: u8) -> u8
    ensures { result ≡ sbox x }
{
    (sigma4(x as u32) % 256) as u8
}
