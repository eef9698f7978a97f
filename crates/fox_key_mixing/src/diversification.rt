// The diversification of a mixed key (001 §2.3.8): it is XORed with successive register values, three bytes each.
// The bytes are taken in words of eight, so a word may begin or end inside a register value.
ghost use Rattle.std.specs.Prelude.{◌≡◌, ◌++◌, ◌≤◌, take, drop};
ghost use Rattle.fox_layers.specs.Words.{split};
ghost use Rattle.fox_key_register.specs.Register.{clocked, iterate};
ghost use Rattle.fox_key_mixing.specs.Diversification.{stream, dkey};
ghost use Rattle.fox_key_mixing.specs.KeyBytes.{word_bytes};

use crate::key::Key;
use fox_key_register::register::Register;

// A word that begins with the whole of x and ends after the second byte of z.
fn word_332(x: Register, y: Register, z: Register) -> u64
    ensures { split 8 result ≡ split 3 x ++ split 3 y ++ take 2 (split 3 z) }
{
    let x = u32::from(x) as u64;
    let y = u32::from(y) as u64;
    let z = u32::from(z) as u64;
    x * 0x100_0000_0000 + y * 0x1_0000 + z / 0x100
}

// A word that begins with the third byte of x and ends after the first byte of t.
fn word_1331(x: Register, y: Register, z: Register, t: Register) -> u64
    ensures { split 8 result ≡ drop 2 (split 3 x) ++ split 3 y ++ split 3 z ++ take 1 (split 3 t) }
{
    let x = u32::from(x) as u64;
    let y = u32::from(y) as u64;
    let z = u32::from(z) as u64;
    let t = u32::from(t) as u64;
    x % 0x100 * 0x100_0000_0000_0000 + y * 0x1_0000_0000 + z * 0x100 + t / 0x1_0000
}

// A word that begins with the second byte of x and ends with the whole of z.
fn word_233(x: Register, y: Register, z: Register) -> u64
    ensures { split 8 result ≡ drop 1 (split 3 x) ++ split 3 y ++ split 3 z }
{
    let x = u32::from(x) as u64;
    let y = u32::from(y) as u64;
    let z = u32::from(z) as u64;
    x % 0x1_0000 * 0x1_0000_0000_0000 + y * 0x100_0000 + z
}

// The first 32 bytes of eleven successive register values; the third byte of the last value is not used.
fn stream(reg: Register) -> [u64; 4]
    ensures { word_bytes 8 result ++ drop 2 (split 3 (iterate 10 clocked reg)) ≡ stream 11 reg }
{
    let r1 = reg.clocked();
    let r2 = r1.clocked();
    let r3 = r2.clocked();
    let r4 = r3.clocked();
    let r5 = r4.clocked();
    let r6 = r5.clocked();
    let r7 = r6.clocked();
    let r8 = r7.clocked();
    let r9 = r8.clocked();
    let r10 = r9.clocked();
    [
        word_332(reg, r1, r2),
        word_1331(r2, r3, r4, r5),
        word_233(r5, r6, r7),
        word_332(r8, r9, r10),
    ]
}

impl<const N: usize> Key<N> {
    // The mixed key diversified by the register: the first N words of the stream are enough for it.
    pub fn dkey(self, reg: Register) -> Key<N>
        requires { N ≤ 4 }
        ensures { word_bytes 8 result.words ≡ dkey (word_bytes 8 self.entry.words) reg }
    {
        let row = stream(reg);
        let mut words = self.words;
        for (i, w) in words.iter_mut().enumerate() {
            *w ^= row[i];
        }
        Key { words }
    }
}
