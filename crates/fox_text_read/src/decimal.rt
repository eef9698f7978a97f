// Decimals from 0 to a limit, read from a text of any length.
ghost use Rattle.std.specs.Prelude.{◌≡◌};
ghost use Rattle.fox_text.specs.Decimal.{Found, begins, decimal_of, in_range, is_decimal, is_digit};

pub fn is_digit(d: u8) -> bool
    ensures { result ≡ is_digit d }
{
    d.is_ascii_digit()
}

// The value of digits, with or without a leading zero. It only grows, so the first digit that takes it above the limit settles the answer, however many follow.
fn digits(ds: &[u8], most: u32) -> Option<u32>
    ensures { Found (in_range most ds.now) (decimal_of ds.now) result }
{
    let mut v: u64 = 0;
    for d in ds {
        if !is_digit(*d) {
            return None;
        }
        v = v * 10 + u64::from(*d - b'0');
        if v > u64::from(most) {
            return None;
        }
    }
    Some(v as u32)
}

// Whether there is at least one digit, and no leading zero.
fn begins(ds: &[u8]) -> bool
    ensures { result ≡ begins ds.now }
{
    match ds {
        [] => false,
        [_] => true,
        [first, ..] => *first != b'0',
    }
}

pub fn read_decimal(ds: &[u8], most: u32) -> Option<u32>
    ensures { Found (is_decimal most ds.now) (decimal_of ds.now) result }
{
    if begins(ds) { digits(ds, most) } else { None }
}
