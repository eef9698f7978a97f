// Taking up a run file, from a prepared key and from key bytes: every input is answered. Its text is tested before its tag, and its tag once.
// Cipher, rounds and key come one by one, as C programs hand them over and the promises name them.
// A buffer has a fixed size, and its part in use is a slice: there is no heap.
ghost use Rattle.std.specs.Prelude.{◌≡◌, true, [], ◌∷◌, ◌<◌, length};
ghost use Rattle.fox_key_schedule.specs.Schedule.{round_keys};
ghost use Rattle.fox_refusals.specs.Answer.{number_in};
ghost use Rattle.fox_refusals.specs.Refusals.{Keyed, other_tag, refusal_of};
ghost use Rattle.fox_tag.specs.Tag.{tag_with};
ghost use Rattle.fox_server_key.specs.Prepared.{round_keys_in};
ghost use Rattle.fox_run_file.specs.Says.{close_in, is_rest, before_close};
ghost use Rattle.fox_run_file.specs.Refusals.{broken_header, broken_rest};
ghost use Rattle.fox_run_file.specs.Outcomes.{taken_of};
ghost use Rattle.fox_run_file.specs.Promise.{TakesUpWith};

use fox_refusals::refusal::{Refusal, refuse};
use fox_refusals::refusals::{block_size, for_key};
use fox_run_file::place::Place;
use fox_run_file_lines::lines::{block_line, header_fits};
use fox_run_file_scan::scan::rest_fits;
use fox_run_file_sizes::sizes::{close_size, header_size};
use fox_server_key::prepared::{Prepared, prepare};
use fox_server_tag::tag::test;
use fox_text_lines::lines::rest;

// The refusals of a file's text: 11 where the header is broken or another key's, 12 where the rest is broken.
#[tactic(auto, using(crate::proofs::Laws::Taken::text_tests), unfolding(fox_refusals::specs::Refusals::or_else))]
fn of_text(file: &[u8], cipher: u32, rounds: u32) -> Result<(), Refusal>
    requires { (cipher < 100000) × (rounds < 100000) }
    ensures { number_in result ≡ refusal_of (broken_header cipher rounds file.now ∷ broken_rest cipher rounds file.now ∷ []) }
{
    let header = header_size(cipher, rounds);
    let close = close_size(cipher);
    refuse(!header_fits(file, cipher, rounds), Refusal::BrokenHeader)?;
    refuse(
        !rest_fits(file, cipher, rounds, header, close),
        Refusal::BrokenRest,
    )
}

// The refusal of a file's tag: 10 where the tag in the line `close` is not that of all that comes before it.
fn of_tag(p: Prepared, file: &[u8]) -> Result<(), Refusal>
    requires { Keyed p.cipher p.rounds p.key_len × (is_rest p.cipher p.rounds file.now ≡ true) }
    ensures { number_in result ≡ refusal_of (other_tag (tag_with p.cipher (round_keys_in p) (before_close p.cipher file.now))
        (close_in p.cipher file.now) ∷ []) }
{
    let close = close_size(p.cipher);
    let before = file.len() - close;
    let mut tag = [0u8; 16];
    block_line(rest(file, before), b"close=", p.cipher, &mut tag);
    let size = block_size(p.cipher);
    test(p, &file[..before], &tag[..size])
}

// From a prepared key: the answer is that of the round keys it holds, also where the caller filled it. Reading begins after the header.
pub fn take_up(p: Prepared, file: &[u8]) -> Result<Place, Refusal>
    ensures { TakesUpWith p.cipher p.rounds p.key_len (round_keys_in p) file.now (taken_of result) }
{
    for_key(p.cipher, p.rounds, p.key_len)?;
    of_text(file, p.cipher, p.rounds)?;
    of_tag(p, file)?;
    Ok(Place {
        at: header_size(p.cipher, p.rounds),
        scans: 0,
        offset: 0,
    })
}

// From key bytes; the key is prepared within the call.
pub fn take_up_from_key(cipher: u32, rounds: u32, key: &[u8], file: &[u8]) -> Result<Place, Refusal>
    ensures { TakesUpWith cipher rounds (length key.now) (round_keys cipher rounds key.now) file.now (taken_of result) }
{
    let p = prepare(cipher, rounds, key)?;
    take_up(p, file)
}
