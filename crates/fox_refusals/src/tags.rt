// The refusals of a call on a tag, `making` as in the definition: the first that applies. That a tag differs is seen last, by whoever tests it.
ghost use Rattle.std.specs.Prelude.{◌≡◌};
ghost use Rattle.fox_refusals.specs.Refusals.{refusal_of, for_tag};
ghost use Rattle.fox_refusals.specs.Answer.{number_in};

use crate::refusal::{Refusal, refuse};
use crate::refusals::{block_size, for_key};

#[tactic(auto, using(crate::proofs::Laws::Tests::tag_tests), unfolding(crate::specs::Refusals::or_else))]
pub fn for_tag(
    making: bool,
    cipher: u32,
    rounds: u32,
    key_len: usize,
    message_len: usize,
    tag_len: usize,
) -> Result<(), Refusal>
    ensures { number_in result ≡ refusal_of (for_tag making cipher rounds key_len message_len tag_len) }
{
    for_key(cipher, rounds, key_len)?;
    refuse(message_len > 1_073_741_824, Refusal::LongData)?;
    let of_tag = if making {
        Refusal::WrongOutputLength
    } else {
        Refusal::WrongTagLength
    };
    refuse(tag_len != block_size(cipher), of_tag)
}
