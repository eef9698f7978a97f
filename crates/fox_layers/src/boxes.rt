// The three small S-boxes S1 to S3 (001 §3.1, Fig. 13) by their bits, as circuits of "and", "or" and XOR, each on eight numbers at once. The promises hold
// them to the figure's entries.
// Three circuits of their own, and not one at three sizes.
ghost use Rattle.std.specs.Prelude.{ℕ, get_or};
ghost use Rattle.fox_layers.specs.Substitution.{S₁, S₂, S₃};
ghost use Rattle.fox_layers.specs.Structs.{Each};

use crate::nibbles::{Nibbles, ONES};

pub(crate) fn s1(x: Nibbles) -> Nibbles
    ensures { Each (λ (n : ℕ). get_or S₁ n 0) x result }
{
    let a = x.b0 ^ x.b1;
    let b = x.b1 ^ x.b2;
    let c = b ^ x.b3;
    let d = x.b2 & c;
    let e = x.b1 ^ d;
    let f = (x.b0 ^ c) | e;
    let g = x.b3 ^ d;
    let h = g | (e ^ f);
    let i = c ^ h;
    Nibbles {
        b3: e ^ ((a ^ b ^ f) & i),
        b2: (a & x.b2) ^ h,
        b1: g ^ ONES ^ f,
        b0: i,
    }
}

pub(crate) fn s2(x: Nibbles) -> Nibbles
    ensures { Each (λ (n : ℕ). get_or S₂ n 0) x result }
{
    let a = x.b2 ^ x.b3;
    let b = x.b2 ^ (x.b1 | a);
    let c = b ^ ONES;
    let d = x.b0 ^ (x.b1 | c);
    let e = a ^ d;
    let f = x.b1 ^ e;
    let g = (d | e) ^ x.b1;
    Nibbles {
        b3: g ^ x.b2,
        b2: c ^ g ^ x.b3,
        b1: f,
        b0: e ^ (b & f),
    }
}

pub(crate) fn s3(x: Nibbles) -> Nibbles
    ensures { Each (λ (n : ℕ). get_or S₃ n 0) x result }
{
    let a = x.b1 ^ x.b2;
    let b = a ^ x.b3;
    let c = b ^ (x.b0 & x.b1);
    let d = a ^ c ^ ONES;
    let e = (x.b2 & c) ^ x.b0;
    let f = e ^ x.b2;
    let g = d & f;
    let h = g ^ c;
    let i = x.b0 ^ b;
    let j = (e | (h ^ d)) ^ f;
    let k = i ^ j;
    Nibbles {
        b3: k,
        b2: h ^ k,
        b1: x.b1 ^ f,
        b0: e ^ (i | (j ^ g)),
    }
}
