// Making and testing a tag by the card engine, from cipher, rounds, key bytes and message: every input is answered.
// Cipher, rounds and key come one by one, as C programs hand them over and the promises name them.
// A buffer has a fixed size, and its part in use is a slice: there is no heap.
ghost use Rattle.fox_refusals.specs.Answer.{answer_of, verdict_of};
ghost use Rattle.fox_tag.specs.Promise.{MakesTag, TestsTag};

use crate::chain::tag;
use fox_engine_tag::verdict::compared;
use fox_refusals::refusal::Refusal;
use fox_refusals::tags::for_tag;

pub fn make(
    cipher: u32,
    rounds: u32,
    key: &[u8],
    message: &[u8],
    out: &mut [u8],
) -> Result<usize, Refusal>
    ensures { MakesTag cipher rounds key.now message.now out.old out.new (answer_of result) }
{
    for_tag(true, cipher, rounds, key.len(), message.len(), out.len())?;
    tag(cipher, rounds as u8, key, message, out);
    Ok(out.len())
}

// Makes the right tag in a buffer, and compares the stored one with it.
pub fn test(
    cipher: u32,
    rounds: u32,
    key: &[u8],
    message: &[u8],
    stored: &[u8],
) -> Result<(), Refusal>
    ensures { TestsTag cipher rounds key.now message.now stored.now (verdict_of result) }
{
    for_tag(
        false,
        cipher,
        rounds,
        key.len(),
        message.len(),
        stored.len(),
    )?;
    let mut room = [0; 16];
    let right = &mut room[..stored.len()];
    tag(cipher, rounds as u8, key, message, right);
    compared(right, stored)
}
