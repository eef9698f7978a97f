// The field of 256 elements (001 §1.6), computed without tables: products by the coefficients of mu4 and mu8, from doubling and halving.
ghost use Rattle.std.specs.Prelude.{◌≡◌};
ghost use Rattle.fox_layers.specs.Field.{double, halve, product};
ghost use Rattle.fox_layers.specs.Structs.{MultiplesOf};

// Times 02: a shift left. The bit shifted out at the top comes back as F9: its mask is FF where that bit is 1, and 00 where it is 0.
pub fn double(x: u8) -> u8
    ensures { result ≡ double x }
{
    let top = x / 128;
    let mask = top * 0xFF;
    let shifted = x % 128 * 2;
    shifted ^ (mask & 0xF9)
}

// Times FC, which is division by 02: a shift right. The bit shifted out at the bottom comes back as FC, by a mask of the same kind.
pub fn halve(x: u8) -> u8
    ensures { result ≡ halve x }
{
    let bottom = x % 2;
    let mask = bottom * 0xFF;
    let shifted = x / 2;
    shifted ^ (mask & 0xFC)
}

pub fn times_fd(x: u8) -> u8
    ensures { result ≡ product 0xFD x }
{
    halve(x) ^ x
}

// A byte's products by the coefficients of mu8 other than 01.
#[derive(Clone, Copy)]
pub struct Multiples {
    pub m02: u8,
    pub m03: u8,
    pub m04: u8,
    pub m7e: u8,
    pub m82: u8,
    pub mfc: u8,
}

pub fn multiples_of(x: u8) -> Multiples
    ensures { MultiplesOf x result }
{
    let m02 = double(x);
    let mfc = halve(x);
    let m04 = double(m02);
    let m7e = halve(mfc);
    Multiples {
        m02,
        m03: m02 ^ x,
        m04,
        m7e,
        m82: mfc ^ m7e,
        mfc,
    }
}
