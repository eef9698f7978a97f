// A stretch of a run, sealed or opened, by the card engine, from cipher, rounds, key bytes, counter block, offset and input: every input is answered.
// Cipher, rounds and key come one by one, as C programs hand them over and the promises name them.
ghost use Rattle.fox_refusals.specs.Answer.{answer_of};
ghost use Rattle.fox_run.specs.Promise.{Runs};

use crate::stretch::stretch;
use fox_engine_block::blocks::read;
use fox_key_schedule::schedule::Schedule;
use fox_refusals::refusal::Refusal;
use fox_refusals::stretch::for_run;

pub fn run(
    sealing: bool,
    cipher: u32,
    rounds: u32,
    key: &[u8],
    counter: &[u8],
    offset: u64,
    input: &[u8],
    out: &mut [u8],
) -> Result<usize, Refusal>
    ensures { Runs sealing cipher rounds key.now counter.now offset input.now out.old out.new
        (answer_of result) }
{
    for_run(
        sealing,
        cipher,
        rounds,
        key.len(),
        counter.len(),
        offset,
        input.len(),
        out.len(),
    )?;
    let s = Schedule::of(cipher, key);
    let x = read(cipher, counter);
    stretch(s, rounds as u8, x, offset as usize, input, out);
    Ok(out.len())
}
