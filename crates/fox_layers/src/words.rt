// Words as bytes, the most significant first (001 §1.5), and XOR of bytes (001 §1.3).
ghost use Rattle.std.specs.Prelude.{◌≡◌, ℕ};
ghost use Rattle.fox_layers.specs.Words.{joined, split, xor_all};

// A word of N bytes.
pub trait Word<const N: usize>: Copy {
    ghost number: { Self → ℕ };

    fn join(bytes: [u8; N]) -> Self
        ensures { number result ≡ joined bytes.entry };

    fn split(self) -> [u8; N]
        ensures { result ≡ split N (number self) };
}

impl Word<4> for u32 {
    ghost number = { λ w. w };

    fn join(bytes: [u8; 4]) -> u32
        ensures { result ≡ joined bytes }
    {
        u32::from_be_bytes(bytes)
    }

    fn split(self) -> [u8; 4]
        ensures { result ≡ split 4 self }
    {
        self.to_be_bytes()
    }
}

impl Word<8> for u64 {
    ghost number = { λ w. w };

    fn join(bytes: [u8; 8]) -> u64
        ensures { result ≡ joined bytes }
    {
        u64::from_be_bytes(bytes)
    }

    fn split(self) -> [u8; 8]
        ensures { result ≡ split 8 self }
    {
        self.to_be_bytes()
    }
}

// The XOR of N bytes.
pub fn xor_all<const N: usize>(xs: [u8; N]) -> u8
    ensures { result ≡ xor_all xs.entry }
{
    xs.iter().copied().fold(0, |sum, x| sum ^ x)
}
