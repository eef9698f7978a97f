// The refusals of a call that makes a run's first counter block: the first that applies.
ghost use Rattle.std.specs.Prelude.{◌≡◌};
ghost use Rattle.fox_refusals.specs.Refusals.{refusal_of, for_counter};
ghost use Rattle.fox_refusals.specs.Answer.{number_in};

use crate::refusal::{Refusal, refuse};
use crate::refusals::{block_size, wrong_cipher};

#[tactic(auto, using(crate::proofs::Laws::Tests::counter_tests), unfolding(crate::specs::Refusals::or_else))]
pub fn for_counter(cipher: u32, counter_len: usize) -> Result<(), Refusal>
    ensures { number_in result ≡ refusal_of (for_counter cipher counter_len) }
{
    refuse(wrong_cipher(cipher), Refusal::WrongCipher)?;
    refuse(counter_len != block_size(cipher), Refusal::WrongBlockLength)
}
