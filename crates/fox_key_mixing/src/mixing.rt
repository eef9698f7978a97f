// Padding and mixing of a key (001 §2.3.5 to §2.3.7).
// A buffer has a fixed size, and a number tells its part in use: there is no heap.
ghost use Rattle.std.specs.Prelude.{◌≡◌, ◌++◌, ◌+◌, ◌*◌, ◌%◌, ◌<◌, ◌≤◌, length, get_or, take};
ghost use Rattle.fox_layers.specs.Words.{◌⊕◌};
ghost use Rattle.fox_key_mixing.specs.Padding.{padded, mixed, mkey};
ghost use Rattle.fox_key_mixing.specs.KeyBytes.{word_bytes};

use crate::key::Key;

// The first 32 bytes of e - 2.
const PAD: [u8; 32] = [
    0xB7, 0xE1, 0x51, 0x62, 0x8A, 0xED, 0x2A, 0x6A, 0xBF, 0x71, 0x58, 0x80, 0x9C, 0xF4, 0xF3, 0xC7,
    0x62, 0xE7, 0x16, 0x0F, 0x38, 0xB4, 0xDA, 0x56, 0xA7, 0x84, 0xD9, 0x04, 0x51, 0x90, 0xCF, 0xEF,
];

// A byte XORed with the sum, mod 256, of the two mixed bytes before it.
fn mixed_byte(p: u8, x: u8, y: u8) -> u8
    ensures { result ≡ p ⊕ (y + x) % 256 }
{
    p ^ y.wrapping_add(x)
}

// Byte number i of the key followed by the pad.
fn padded_byte(key: &[u8], pad: &[u8; 32], i: usize) -> u8
    requires { i < 32 }
    ensures { result ≡ get_or (key.now ++ pad.now) i 0 }
{
    if i < key.len() {
        key[i]
    } else {
        pad[i - key.len()]
    }
}

// A key padded to ek bytes, and mixed; the bytes after these are not used. Byte by byte, by the byte's number: a copy of as many bytes as the key has calls
// memcpy, and the card's proved code needs nothing of the C library. Padded in a loop of its own, before the mixing, a run takes more than a card's stack.
fn mixed_bytes(key: &[u8], ek: usize) -> [u8; 32]
    requires { (length key.now ≤ ek) × (ek ≤ 32) }
    ensures { take ek result ≡ mixed 0x6A 0x76 (padded ek key.now) }
{
    // A constant array is built anew wherever it is named, so it is named once, before the loop.
    let pad = PAD;
    let mut out = [0; 32];
    let mut x = 0x6A;
    let mut y = 0x76;
    for i in 0..ek {
        let m = mixed_byte(padded_byte(key, &pad, i), x, y);
        out[i] = m;
        x = y;
        y = m;
    }
    out
}

impl<const N: usize> Key<N> {
    // mkey for a key of at most 8 N bytes; one of so many bytes is taken as it is.
    pub fn mkey(key: &[u8]) -> Key<N>
        requires { (length key.now ≤ N * 8) × (N ≤ 4) }
        ensures { word_bytes 8 result.words ≡ mkey (N * 8) key.now }
    {
        if key.len() < N * 8 {
            Key::load(&mixed_bytes(key, N * 8))
        } else {
            Key::load(key)
        }
    }
}
