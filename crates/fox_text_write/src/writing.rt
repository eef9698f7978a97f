// Texts written into a buffer from a place on. Each function returns the place after its last byte, and promises a limit for it.
// Buffer and place are two parameters, since a writer that holds both is no plainer: a run file's writer reads and moves the buffer's bytes between two writes.
ghost use Rattle.std.specs.Prelude.{◌≡◌, ◌+◌, ◌*◌, ◌≤◌, ◌<◌, length};
ghost use Rattle.fox_text.specs.Decimal.{digits_text};
ghost use Rattle.fox_text.specs.Hex.{digit, hex_text};
ghost use Rattle.fox_text.specs.Fields.{PutsDecimal, PutsPairs};
ghost use Rattle.fox_text.specs.Put.{Put};

pub fn put(out: &mut [u8], at: usize, text: &[u8]) -> usize
    requires { at + length text.now ≤ length out.old }
    ensures { Put (length text.now) text.now out.old out.new at result }
{
    let end = at + text.len();
    out[at..end].copy_from_slice(text);
    end
}

// The last `places` digits of a number, or all of its digits, with no leading zero, where it has at most `places`.
pub fn put_digits(out: &mut [u8], at: usize, n: u32, places: usize) -> usize
    requires { at + places ≤ length out.old }
    ensures { Put places (digits_text places n) out.old out.new at result }
{
    if places == 0 {
        return at;
    }
    if n < 10 {
        out[at] = b'0' + n as u8;
        return at + 1;
    }
    let last = put_digits(out, at, n / 10, places - 1);
    out[last] = b'0' + (n % 10) as u8;
    last + 1
}

fn digit(n: u8) -> u8
    requires { n < 16 }
    ensures { result ≡ digit n }
{
    if n < 10 { b'0' + n } else { b'A' + (n - 10) }
}

pub fn put_hex(out: &mut [u8], at: usize, bytes: &[u8]) -> usize
    requires { at + length bytes.now * 2 ≤ length out.old }
    ensures { Put (length bytes.now * 2) (hex_text bytes.now) out.old out.new at result }
{
    let mut end = at;
    for b in bytes {
        end = put(out, end, &[digit(*b / 16), digit(*b % 16)]);
    }
    end
}

// A name, a number of at most five digits, and a line feed.
pub fn put_decimal_line(out: &mut [u8], at: usize, name: &[u8], n: u32) -> usize
    requires { at + (length name.now + 6) ≤ length out.old }
    ensures { PutsDecimal name.now n out.old out.new at result }
{
    let a = put(out, at, name);
    let b = put_digits(out, a, n, 5);
    put(out, b, b"\n")
}

pub fn put_pairs_line(out: &mut [u8], at: usize, name: &[u8], bytes: &[u8]) -> usize
    requires { at + (length name.now + length bytes.now * 2 + 1) ≤ length out.old }
    ensures { PutsPairs name.now bytes.now out.old out.new at result }
{
    let a = put(out, at, name);
    let b = put_hex(out, a, bytes);
    put(out, b, b"\n")
}
