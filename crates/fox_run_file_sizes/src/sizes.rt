// Lengths of lines, of scans and of a whole file, and the refusals that go by them.
ghost use Rattle.std.specs.Prelude.{◌≡◌, ◌≤◌, ◌<◌, length};
ghost use Rattle.fox_refusals.specs.Answer.{answer_of};
ghost use Rattle.fox_text.specs.Decimal.{decimal_text};
ghost use Rattle.fox_run_file.specs.Format.{close_name};
ghost use Rattle.fox_run_file.specs.Sizes.{block_line_size, header_size, scan_size};
ghost use Rattle.fox_run_file.specs.Promise.{TellsSize};
ghost use Rattle.fox_run_file.specs.Parts.{MayWrite, Sized};
ghost use Rattle.fox_run_file_sizes.specs.Added.{Added};

use fox_refusals::refusal::{Refusal, refuse};
use fox_refusals::refusals::{block_size, for_key, for_turn};
use fox_run_file::sizes::Sizes;

// How many digits a number below 100,000 has. By its limits: a logarithm takes twice the time.
fn digits(n: u32) -> usize
    requires { n < 100000 }
    ensures { (result ≡ length (decimal_text n)) × (result ≤ 5) }
{
    match n {
        0..=9 => 1,
        10..=99 => 2,
        100..=999 => 3,
        1_000..=9_999 => 4,
        _ => 5,
    }
}

pub fn close_size(cipher: u32) -> usize
    ensures { result ≡ block_line_size close_name cipher }
{
    7 + 2 * block_size(cipher)
}

pub fn header_size(cipher: u32, rounds: u32) -> usize
    requires { (cipher < 100000) × (rounds < 100000) }
    ensures { result ≡ header_size cipher rounds }
{
    36 + digits(cipher) + digits(rounds) + 2 * block_size(cipher)
}

// A scan with its two lines and its line feed.
fn scan_size(number: usize, size: usize) -> usize
    requires { (number ≤ 65535) × (size ≤ 65536) }
    ensures { result ≡ scan_size number size }
{
    14 + digits(number as u32) + digits(size as u32) + size
}

// Adds up the lengths of the scans, and those of the scans with their lines; none where a scan is too long.
fn scans_size(sizes: &[u64]) -> Option<Sizes>
    requires { length sizes.now ≤ 65535 }
    ensures { Added sizes.now result }
{
    let mut total: usize = 0;
    let mut size: usize = 0;
    for (i, n) in sizes.iter().enumerate() {
        if *n > 65_536 {
            return None;
        }
        total += *n as usize;
        size += scan_size(i + 1, *n as usize);
    }
    Some(Sizes { total, size })
}

// The lengths of a file's scans added up, and the length of the file; more lengths than a file can have scans are told by their number alone.
pub fn file_size(cipher: u32, rounds: u32, sizes: &[u64]) -> Option<Sizes>
    requires { (cipher < 100000) × (rounds < 100000) }
    ensures { Sized cipher rounds sizes.now result }
{
    let number = sizes.len();
    if number > 65_535 {
        return None;
    }
    let scans = scans_size(sizes)?;
    let header = header_size(cipher, rounds);
    let before = header + scans.size + 7 + digits(number as u32);
    if before > 1_073_741_824 {
        return None;
    }
    let size = before + close_size(cipher);
    Some(Sizes {
        total: scans.total,
        size,
    })
}

// How long a file of scans of these lengths will be. Cipher and rounds are refused as they are with an empty key.
#[tactic(auto, using(crate::proofs::Laws::Tests::size_tests), unfolding(fox_refusals::specs::Refusals::or_else))]
pub fn tell_size(cipher: u32, rounds: u32, sizes: &[u64]) -> Result<usize, Refusal>
    ensures { TellsSize cipher rounds sizes.now (answer_of result) }
{
    for_key(cipher, rounds, 0)?;
    let s = file_size(cipher, rounds, sizes).ok_or(Refusal::BrokenRest)?;
    Ok(s.size)
}

// Whether a file may be written, and how long it will be.
#[tactic(auto, using(crate::proofs::Laws::Tests::write_tests), unfolding(fox_refusals::specs::Refusals::or_else))]
pub fn for_write(
    cipher: u32,
    rounds: u32,
    key_len: usize,
    counter_len: usize,
    input_len: usize,
    sizes: &[u64],
    out_len: usize,
) -> Result<usize, Refusal>
    ensures { MayWrite cipher rounds key_len counter_len input_len sizes.now out_len (answer_of result) }
{
    for_turn(true, cipher, rounds, key_len)?;
    refuse(counter_len != block_size(cipher), Refusal::WrongBlockLength)?;
    let s = file_size(cipher, rounds, sizes).ok_or(Refusal::BrokenRest)?;
    refuse(s.total != input_len, Refusal::BrokenRest)?;
    refuse(out_len < s.size, Refusal::WrongOutputLength)?;
    Ok(s.size)
}
