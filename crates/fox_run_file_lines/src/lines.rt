// The header's first three lines, a line that has a block or a number, and the lines that end a file.
// A line is built in an array of its greatest length and its length stands beside it: memory is fixed, with no heap, and what `put` answers is a place.
ghost use Rattle.std.specs.Prelude.{◌≡◌, ◌+◌, ◌≤◌, length};
ghost use Rattle.fox_refusals.specs.Refusals.{block_size};
ghost use Rattle.fox_text.specs.Put.{Put, Stored};
ghost use Rattle.fox_run_file.specs.Format.{key_lines};
ghost use Rattle.fox_run_file.specs.Says.{is_header, counter_in, is_end};
ghost use Rattle.fox_run_file.specs.Parts.{FindsLine, ReadsBlock};

use fox_refusals::refusals::block_size;
use fox_text_lines::lines::{after_line, rest, starts_with};
use fox_text_read::fields::{pairs_in, pairs_line};
use fox_text_write::writing::{put, put_decimal_line};

// The lines that the key's cipher and rounds settle, from a place on.
pub fn put_key_lines(out: &mut [u8], at: usize, cipher: u32, rounds: u32) -> usize
    requires { at + 37 ≤ length out.old }
    ensures { Put 37 (key_lines cipher rounds) out.old out.new at result }
{
    let a = put(out, at, b"format=run\n");
    let b = put_decimal_line(out, a, b"cipher=", cipher);
    put_decimal_line(out, b, b"rounds=", rounds)
}

// Whether a text begins with a line of this name and exactly one block; the block's bytes go to the start of the output. A bool beside a buffer, and no
// Option: what is in the buffer is promised where the line is not right too (`ReadsBlock`).
pub fn block_line(t: &[u8], name: &[u8], cipher: u32, out: &mut [u8]) -> bool
    requires { block_size cipher ≤ length out.old }
    ensures { ReadsBlock name.now cipher t.now out.old out.new result }
{
    let size = block_size(cipher);
    pairs_line(t, name, size, out) == Some(size)
}

// Whether a file begins with the header of this cipher and these rounds.
pub fn header_fits(file: &[u8], cipher: u32, rounds: u32) -> bool
    ensures { result ≡ is_header cipher rounds file.now }
{
    let mut lines = [0u8; 37];
    let n = put_key_lines(&mut lines, 0, cipher, rounds);
    let mut counter = [0u8; 16];
    starts_with(&lines[..n], file) && block_line(rest(file, n), b"counter=", cipher, &mut counter)
}

// The counter block of a file's header goes to the start of the output; returns how many bytes it has. A line with no block gives 0 and no None: its counter
// has no bytes, and `Stored` promises the output of such a file too.
pub fn counter_of(file: &[u8], cipher: u32, rounds: u32, out: &mut [u8]) -> usize
    requires { block_size cipher ≤ length out.old }
    ensures { Stored (block_size cipher) (counter_in cipher rounds file.now) out.old out.new result }
{
    let mut lines = [0u8; 37];
    let n = put_key_lines(&mut lines, 0, cipher, rounds);
    pairs_in(rest(file, n), b"counter=", block_size(cipher), out).unwrap_or(0)
}

// Looks for a line of this name and this number at the start of a text; returns how many bytes it has.
pub fn number_line(t: &[u8], name: &[u8], number: u32) -> Option<usize>
    requires { length name.now ≤ 6 }
    ensures { FindsLine name.now number t.now result }
{
    let mut line = [0u8; 12];
    let n = put_decimal_line(&mut line, 0, name, number);
    starts_with(&line[..n], t).then_some(n)
}

// Whether a text is the end of a file of so many scans.
pub fn end_fits(t: &[u8], cipher: u32, number: u32) -> bool
    ensures { result ≡ is_end cipher number t.now }
{
    let Some(n) = number_line(t, b"scans=", number) else {
        return false;
    };
    let close = rest(t, n);
    let mut tag = [0u8; 16];
    block_line(close, b"close=", cipher, &mut tag) && after_line(close).is_empty()
}
