// Opening the scan at a place, from a prepared key and from key bytes: every input is answered.
// Cipher, rounds and key come one by one, as C programs hand them over and the promises name them.
// A buffer has a fixed size, and its part in use is a slice: there is no heap.
ghost use Rattle.std.specs.Prelude.{length};
ghost use Rattle.fox_key_schedule.specs.Schedule.{round_keys};
ghost use Rattle.fox_server_key.specs.Prepared.{round_keys_in};
ghost use Rattle.fox_run_file.specs.Outcomes.{read_of};
ghost use Rattle.fox_run_file.specs.Promise.{ReadsWith};

use crate::places::{after, find_at};
use fox_refusals::refusal::Refusal;
use fox_run_file::place::Place;
use fox_run_file::reading::Opened;
use fox_run_file_lines::lines::counter_of;
use fox_server_key::prepared::{Prepared, prepare};
use fox_server_run::run::run;

// From a prepared key: the answer is that of the round keys it holds, also where the caller filled it. At the end there is nothing to open.
pub fn read_at(
    p: Prepared,
    file: &[u8],
    place: Place,
    out: &mut [u8],
) -> Result<Option<Opened>, Refusal>
    ensures { ReadsWith p.cipher p.rounds p.key_len (round_keys_in p) file.now place out.old out.new (read_of result) }
{
    let Some(scan) = find_at(file, place) else {
        return Ok(None);
    };
    let mut counter = [0u8; 16];
    let n = counter_of(file, p.cipher, p.rounds, &mut counter);
    let first = place.at + scan.head;
    let end = first + scan.size;
    let size = run(
        false,
        p,
        &counter[..n],
        place.offset as u64,
        &file[first..end],
        out,
    )?;
    let next = after(place, scan);
    Ok(Some(Opened { size, next }))
}

// From key bytes; the key is prepared within the call, where there is a scan to open.
pub fn read_from_key(
    cipher: u32,
    rounds: u32,
    key: &[u8],
    file: &[u8],
    place: Place,
    out: &mut [u8],
) -> Result<Option<Opened>, Refusal>
    ensures { ReadsWith cipher rounds (length key.now) (round_keys cipher rounds key.now) file.now place
        out.old out.new (read_of result) }
{
    if find_at(file, place).is_none() {
        return Ok(None);
    }
    let p = prepare(cipher, rounds, key)?;
    read_at(p, file, place, out)
}
