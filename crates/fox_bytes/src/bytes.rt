// Words read from and written to a byte slice, the most significant byte first.
ghost use Rattle.std.specs.Prelude.{◌≡◌, ◌++◌, ◌+◌, ◌*◌, ◌≤◌, length, take, drop};
ghost use Rattle.fox_layers.specs.Words.{joined, split};
ghost use Rattle.fox_bytes.specs.WordBytes.{word_bytes};

use fox_layers::words::Word;

// The word of the N bytes from `at` on. They are read in their place: a copy of them takes a test of whether it lies over them.
pub fn load<W: Word<N>, const N: usize>(s: &[u8], at: usize) -> W
    requires { at + N ≤ length s.now }
    ensures number { W.number result ≡ joined (take N (drop at s.now)) }
    ensures bytes { split N (W.number result) ≡ take N (drop at s.now) }
{
    W::join(*s[at..].first_chunk().unwrap())
}

// Only the first N bytes of the output are written.
pub fn store<W: Word<N>, const N: usize>(out: &mut [u8], w: W)
    requires { N ≤ length out.old }
    ensures { out.new ≡ split N (W.number w) ++ drop N out.old }
{
    out[..N].copy_from_slice(&w.split());
}

// Words of four bytes fill the output, one after the other.
pub fn store_all<const N: usize>(out: &mut [u8], words: [u32; N])
    requires { length out.old ≡ N * 4 }
    ensures { out.new ≡ word_bytes 4 words.entry }
{
    for (i, w) in words.iter().enumerate() {
        store(&mut out[i * 4..], *w);
    }
}
