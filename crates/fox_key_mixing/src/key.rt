// A key held in words of 64 bits, the first byte the most significant: two words for a key of 16 bytes, four for one of 32.
ghost use Rattle.std.specs.Prelude.{◌≡◌, ◌*◌, ◌≤◌, length, take};
ghost use Rattle.fox_key_mixing.specs.KeyBytes.{word_bytes};

use fox_bytes::bytes::load;

#[derive(Clone, Copy)]
pub struct Key<const N: usize> {
    pub words: [u64; N],
}

impl<const N: usize> Key<N> {
    pub(crate) fn load(s: &[u8]) -> Key<N>
        requires { N * 8 ≤ length s.now }
        ensures { word_bytes 8 result.words ≡ take (N * 8) s.now }
    {
        let mut words = [0; N];
        for (i, w) in words.iter_mut().enumerate() {
            *w = load(s, i * 8);
        }
        Key { words }
    }
}
