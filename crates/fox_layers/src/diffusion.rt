// The diffusion, computed without tables: a matrix times a word's bytes, row by row (001 §2.2.7, §2.2.8).
//
// A row is a line of `^`. By `xor_all` the compiler makes half as many instructions again, since it finds no XOR that two rows share.
// `mu4` and `mu8` are other matrices over words of other widths, and no twins.
ghost use Rattle.std.specs.Prelude.{◌≡◌};
ghost use Rattle.fox_layers.specs.Diffusion.{mu4, mu8};

use crate::field::{double, multiples_of, times_fd};
use crate::words::Word;

pub fn mu4(w: u32) -> u32
    ensures { result ≡ mu4 w }
{
    let [x0, x1, x2, x3]: [u8; 4] = w.split();
    let d0 = double(x0);
    let d1 = double(x1);
    let d2 = double(x2);
    let d3 = double(x3);
    let z0 = times_fd(x0);
    let z1 = times_fd(x1);
    let z2 = times_fd(x2);
    u32::join([
        x0 ^ x1 ^ x2 ^ d3,
        x0 ^ z1 ^ d2 ^ x3,
        z0 ^ d1 ^ x2 ^ x3,
        d0 ^ x1 ^ z2 ^ x3,
    ])
}

pub fn mu8(w: u64) -> u64
    ensures { result ≡ mu8 w }
{
    let [x0, x1, x2, x3, x4, x5, x6, x7]: [u8; 8] = w.split();
    let p0 = multiples_of(x0);
    let p1 = multiples_of(x1);
    let p2 = multiples_of(x2);
    let p3 = multiples_of(x3);
    let p4 = multiples_of(x4);
    let p5 = multiples_of(x5);
    let p6 = multiples_of(x6);
    let p7 = multiples_of(x7);
    u64::join([
        x0 ^ x1 ^ x2 ^ x3 ^ x4 ^ x5 ^ x6 ^ p7.m03,
        x0 ^ p1.m03 ^ p2.m82 ^ p3.m02 ^ p4.m04 ^ p5.mfc ^ p6.m7e ^ x7,
        p0.m03 ^ p1.m82 ^ p2.m02 ^ p3.m04 ^ p4.mfc ^ p5.m7e ^ x6 ^ x7,
        p0.m82 ^ p1.m02 ^ p2.m04 ^ p3.mfc ^ p4.m7e ^ x5 ^ p6.m03 ^ x7,
        p0.m02 ^ p1.m04 ^ p2.mfc ^ p3.m7e ^ x4 ^ p5.m03 ^ p6.m82 ^ x7,
        p0.m04 ^ p1.mfc ^ p2.m7e ^ x3 ^ p4.m03 ^ p5.m82 ^ p6.m02 ^ x7,
        p0.mfc ^ p1.m7e ^ x2 ^ p3.m03 ^ p4.m82 ^ p5.m02 ^ p6.m04 ^ x7,
        p0.m7e ^ x1 ^ p2.m03 ^ p3.m82 ^ p4.m02 ^ p5.m04 ^ p6.mfc ^ x7,
    ])
}
