// The refusals of a stretch of a run: the first that applies.
ghost use Rattle.std.specs.Prelude.{◌≡◌};
ghost use Rattle.fox_refusals.specs.Refusals.{refusal_of, past_end, for_run};
ghost use Rattle.fox_refusals.specs.Answer.{number_in};

use crate::refusal::{Refusal, refuse};
use crate::refusals::{block_size, for_turn};

// Tests the true sum of offset and length, also where it is above a u64.
#[tactic(auto, unfolding(crate::specs::Refusals::past_end))]
fn past_end(offset: u64, input_len: u64) -> bool
    ensures { result ≡ (past_end offset input_len).applies }
{
    let end = offset.checked_add(input_len);
    end.is_none_or(|end| end > 1_073_741_824)
}

#[tactic(auto, using(crate::proofs::Laws::Tests::run_tests), unfolding(crate::specs::Refusals::or_else))]
pub fn for_run(
    sealing: bool,
    cipher: u32,
    rounds: u32,
    key_len: usize,
    counter_len: usize,
    offset: u64,
    input_len: usize,
    out_len: usize,
) -> Result<(), Refusal>
    ensures { number_in result ≡ refusal_of (for_run sealing cipher rounds key_len counter_len offset input_len out_len) }
{
    for_turn(sealing, cipher, rounds, key_len)?;
    refuse(counter_len != block_size(cipher), Refusal::WrongBlockLength)?;
    refuse(input_len > 65_536, Refusal::LongData)?;
    refuse(out_len != input_len, Refusal::WrongOutputLength)?;
    refuse(past_end(offset, input_len as u64), Refusal::PastEnd)
}
