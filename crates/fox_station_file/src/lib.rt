// The station's calls on run files, on numbers and byte slices, by the server engine. The key is prepared within the call. A call with refusals returns the
// refusal number, 0 for success; counts and the place go through numbers that the caller lends.
#![tactic(auto)]

ghost use Rattle.std.specs.Prelude.{◌≡◌};
ghost use Rattle.fox_refusals.specs.Answer.{answer_of};
ghost use Rattle.fox_run_file.specs.declared.place.Place.{Place};
ghost use Rattle.fox_station_file.specs.Files.{place_in, length_of, CountHanded, SizeHanded, WriteHanded, TakeUpHanded, NextHanded, ReadHanded, SkipHanded};

use fox_refusals::refusal::Refusal;
use fox_run_file::place::Place;
use fox_run_file_read::places::{next_at, pass_over};
use fox_run_file_read::read::read_from_key;
use fox_run_file_sizes::sizes::tell_size;
use fox_run_file_take_up::take::take_up_from_key;
use fox_run_file_write::write::write_from_key;

// The words of the place at which a refused file's reader stands: past the end of every file.
const NO_PLACE: [u64; 3] = [18_446_744_073_709_551_615, 0, 0];

// Place and words by functions and no From: their order is the C interface's, which this crate alone knows, and the type is another crate's.
#[tactic(auto, unfolding(crate::specs::Files::place_in))]
fn place_in(words: &[u64; 3]) -> Place
    ensures { result ≡ place_in words.now }
{
    Place {
        at: words[0] as usize,
        scans: words[1] as usize,
        offset: words[2] as usize,
    }
}

#[tactic(auto, unfolding(crate::specs::Files::place_in))]
fn words_of(place: Place) -> [u64; 3]
    ensures { place_in result ≡ place }
{
    [place.at as u64, place.scans as u64, place.offset as u64]
}

// The number of an answer; its count goes through a number that the caller lends.
fn handed(answer: Result<usize, Refusal>, count: &mut u64) -> u32
    ensures { CountHanded (answer_of answer) count.new result }
{
    match answer {
        Ok(n) => {
            *count = n as u64;
            0
        }
        Err(refusal) => {
            *count = 0;
            refusal.number()
        }
    }
}

#[unsafe(no_mangle)]
pub extern "C" fn fox_file_size(cipher: u32, rounds: u32, lengths: &[u64], count: &mut u64) -> u32
    ensures { SizeHanded cipher rounds lengths.now count.new result }
{
    handed(tell_size(cipher, rounds, lengths), count)
}

#[unsafe(no_mangle)]
pub extern "C" fn fox_file_write(
    cipher: u32,
    rounds: u32,
    key: &[u8],
    counter: &[u8],
    input: &[u8],
    lengths: &[u64],
    out: &mut [u8],
    count: &mut u64,
) -> u32
    ensures { WriteHanded cipher rounds key.now counter.now input.now lengths.now out.old
        out.new count.new result }
{
    let answer = write_from_key(cipher, rounds, key, counter, input, lengths, out);
    handed(answer, count)
}

#[unsafe(no_mangle)]
pub extern "C" fn fox_file_take_up(
    cipher: u32,
    rounds: u32,
    key: &[u8],
    file: &[u8],
    place: &mut [u64; 3],
) -> u32
    ensures { TakeUpHanded cipher rounds key.now file.now place.new result }
{
    match take_up_from_key(cipher, rounds, key, file) {
        Ok(start) => {
            *place = words_of(start);
            0
        }
        Err(refusal) => {
            *place = NO_PLACE;
            refusal.number()
        }
    }
}

#[unsafe(no_mangle)]
pub extern "C" fn fox_file_next_length(file: &[u8], place: &[u64; 3]) -> u64
    ensures { NextHanded file.now place.now result }
{
    match next_at(file, place_in(place)) {
        Some(size) => size as u64,
        None => 18_446_744_073_709_551_615,
    }
}

#[unsafe(no_mangle)]
pub extern "C" fn fox_file_read(
    cipher: u32,
    rounds: u32,
    key: &[u8],
    file: &[u8],
    place: &mut [u64; 3],
    out: &mut [u8],
    count: &mut u64,
) -> u32
    ensures { ReadHanded cipher rounds key.now file.now place.old place.new out.old
        out.new count.new result }
{
    *count = 0;
    let at = place_in(place);
    match read_from_key(cipher, rounds, key, file, at, out) {
        Ok(Some(scan)) => {
            *place = words_of(scan.next);
            *count = scan.size as u64;
            0
        }
        Ok(None) => 0,
        Err(refusal) => refusal.number(),
    }
}

#[unsafe(no_mangle)]
pub extern "C" fn fox_file_skip(file: &[u8], place: &mut [u64; 3])
    ensures { SkipHanded file.now place.old place.new }
{
    let at = place_in(place);
    *place = words_of(pass_over(file, at));
}
