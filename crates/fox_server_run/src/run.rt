// A stretch of a run by the server engine: of any length with round keys lent; and from a prepared key and from key bytes, where every input is answered.
// Cipher, rounds and key come one by one, as C programs hand them over and the promises name them.
ghost use Rattle.std.specs.Prelude.{◌≡◌};
ghost use Rattle.fox_refusals.specs.Refusals.{block_size};
ghost use Rattle.fox_refusals.specs.Answer.{answer_of};
ghost use Rattle.fox_server_key.specs.Prepared.{held_keys, round_keys_in};
ghost use Rattle.fox_run.specs.Run.{run_with};
ghost use Rattle.fox_run.specs.Parts.{Ready};
ghost use Rattle.fox_run.specs.Promise.{Runs, RunsWith};

use crate::stretch::run_of;
use fox_refusals::refusal::Refusal;
use fox_refusals::stretch::for_run;
use fox_rounds::fox64::Fox64;
use fox_rounds::fox128::Fox128;
use fox_server_key::prepared::{Prepared, prepare};

// Seals or opens the bytes of a run from its byte n on, as many as there are up to the run's end, with the round keys of an array.
// The cipher stays a number: the promise answers for every one, by `run_with`.
pub fn stretch(
    cipher: u32,
    keys: &[u64; 510],
    rounds: usize,
    counter: &[u8],
    n: usize,
    input: &[u8],
    out: &mut [u8],
)
    requires { Ready (block_size cipher) rounds counter.now n input.now out.old }
    ensures { out.new
        ≡ run_with cipher (held_keys cipher keys.now rounds) counter.now n input.now }
{
    if cipher == 64 {
        run_of::<Fox64>(keys, rounds, counter, n, input, out);
    } else {
        run_of::<Fox128>(keys, rounds, counter, n, input, out);
    }
}

// From a prepared key: the answer is that of the round keys it holds, also where the caller filled it.
pub fn run(
    sealing: bool,
    p: Prepared,
    counter: &[u8],
    offset: u64,
    input: &[u8],
    out: &mut [u8],
) -> Result<usize, Refusal>
    ensures { RunsWith sealing p.cipher p.rounds p.key_len (round_keys_in p) counter.now offset input.now
        out.old out.new (answer_of result) }
{
    for_run(
        sealing,
        p.cipher,
        p.rounds,
        p.key_len,
        counter.len(),
        offset,
        input.len(),
        out.len(),
    )?;
    let rounds = p.rounds as usize;
    let first = offset as usize;
    stretch(p.cipher, &p.keys, rounds, counter, first, input, out);
    Ok(out.len())
}

// From key bytes; the key is prepared within the call.
pub fn run_from_key(
    sealing: bool,
    cipher: u32,
    rounds: u32,
    key: &[u8],
    counter: &[u8],
    offset: u64,
    input: &[u8],
    out: &mut [u8],
) -> Result<usize, Refusal>
    ensures { Runs sealing cipher rounds key.now counter.now offset input.now out.old out.new (answer_of result) }
{
    for_run(
        sealing,
        cipher,
        rounds,
        key.len(),
        counter.len(),
        offset,
        input.len(),
        out.len(),
    )?;
    let p = prepare(cipher, rounds, key)?;
    run(sealing, p, counter, offset, input, out)
}
