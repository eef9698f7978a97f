// One block by the card engine, from cipher, rounds, key bytes and block: every input is answered.
// Cipher, rounds and key come one by one, as C programs hand them over and as promises name them (`Turns`): a struct of the three would only be taken apart.
ghost use Rattle.fox_refusals.specs.Answer.{answer_of};
ghost use Rattle.fox_block.specs.Promise.{Turns};

use crate::part::turn_part;
use fox_refusals::refusal::Refusal;

pub fn turn(
    sealing: bool,
    cipher: u32,
    rounds: u32,
    key: &[u8],
    block: &[u8],
    out: &mut [u8],
) -> Result<usize, Refusal>
    ensures { Turns sealing cipher rounds key.now block.now out.old out.new (answer_of result) }
{
    turn_part(sealing, cipher, rounds, key, 0, rounds, 0, block, out)?;
    Ok(out.len())
}
