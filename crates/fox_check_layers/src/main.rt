// Runs the compiled layers: values of the specification, then the card engine's layers against the server engine's lookups on words of a fixed sequence.
// What it prints is compared with the file `stdout`. It prints by the calls of `io`: std's printing rests on C functions that nothing else here trusts.
#![tactic(auto)]

ghost use Rattle.std.specs.Prelude.{◌≡◌};

use fox_layers::{diffusion, substitution};
use fox_server_lookups::lookups;
use fox_server_tables::{tbs, tbsm4, tbsm8};

const WORDS: u32 = 4096;

fn main() {
    print(b"sbox 4C: ", substitution::sbox(0x4C) as u64, 2);
    print(b"mu4 01000000: ", diffusion::mu4(0x0100_0000) as u64, 8);
    print(b"mu4 00000001: ", diffusion::mu4(0x0000_0001) as u64, 8);
    print(
        b"mu8 0100000000000000: ",
        diffusion::mu8(0x0100_0000_0000_0000),
        16,
    );
    print(
        b"mu8 0000000000000001: ",
        diffusion::mu8(0x0000_0000_0000_0001),
        16,
    );
    io::write_all(1, b"32-bit words alike by both engines: ");
    io::print_decimal(1, alike4() as u64);
    io::write_all(1, b"\n64-bit words alike by both engines: ");
    io::print_decimal(1, alike8() as u64);
    io::write_all(1, b"\n");
}

fn print(name: &[u8], value: u64, width: usize) {
    io::write_all(1, name);
    io::print_hex(1, value, width);
    io::write_all(1, b"\n");
}

// The next word of the sequence.
fn next(w: u64) -> u64 {
    let a = w ^ (w >> 12);
    let b = a ^ (a << 25);
    b ^ (b >> 27)
}

// How many words of the sequence pass the test. The loop is a repetition: no turn reads its number.
fn passing<F: Fn(u64) -> bool>(test: F) -> u32
    requires { F.IsAlwaysCallable test }
{
    let mut count = 0;
    let mut w = 0x0123_4567_89AB_CDEF;
    for _ in 0..WORDS {
        w = next(w);
        if test(w) {
            count += 1;
        }
    }
    count
}

// Whether both engines substitute and diffuse the word alike. `same8` and `alike8` stand apart: the calls of the two widths have names and tables of their own, and
// a 64-bit word is substituted in two halves, so that a trait would state each of these calls twice again.
fn same4(s: &[u32; 1024], t: &[u32; 1024], mask: u32, w: u32) -> bool
    requires { mask ≡ 255 }
{
    let x = substitution::sigma4(w);
    x == lookups::pick4(s, mask, w) && diffusion::mu4(x) == lookups::pick4(t, mask, w)
}

fn alike4() -> u32 {
    let s = tbs::tbs();
    let t = tbsm4::tbsm();
    let mask = lookups::byte_mask(&s);
    passing(|w| same4(&s, &t, mask, (w % 0x1_0000_0000) as u32))
}

// Whether both engines substitute and diffuse the word alike.
fn same8(s: &[u32; 1024], t: &[u64; 2048], mask: u32, w: u64) -> bool
    requires { mask ≡ 255 }
{
    let x = substitution::sigma8(w);
    let l = lookups::pick_left(s, mask, w);
    let r = lookups::pick_right(s, mask, w);
    x == (l as u64) * 0x1_0000_0000 + r as u64 && diffusion::mu8(x) == lookups::pick8(t, mask, w)
}

fn alike8() -> u32 {
    let s = tbs::tbs();
    let t = tbsm8::tbsm();
    let mask = lookups::byte_mask(&s);
    passing(|w| same8(&s, &t, mask, w))
}
