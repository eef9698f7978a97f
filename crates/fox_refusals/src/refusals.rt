// The refusals of a key, prepared, or to seal or open with, and of a block: the first that applies.
// Cipher, rounds and key come one by one, as C programs hand them over and the promises name them.
ghost use Rattle.std.specs.Prelude.{◌≡◌};
ghost use Rattle.fox_refusals.specs.Refusals.{refusal_of, block_size, wrong_cipher, wrong_rounds, short_key, for_key, for_turn, for_block};
ghost use Rattle.fox_refusals.specs.Answer.{number_in};

use crate::refusal::{Refusal, refuse};
use fox_rounds::fox64::Fox64;
use fox_rounds::fox128::Fox128;

// The cipher stays a number in every call, since a call answers for every number: any but 64 and 128 is refused.
#[tactic(auto, unfolding(crate::specs::Refusals::block_size))]
pub fn block_size(cipher: u32) -> usize
    ensures { result ≡ block_size cipher }
{
    if cipher == 64 {
        Fox64::BLOCK
    } else {
        Fox128::BLOCK
    }
}

#[tactic(auto, unfolding(crate::specs::Refusals::wrong_cipher))]
pub(crate) fn wrong_cipher(cipher: u32) -> bool
    ensures { result ≡ (wrong_cipher cipher).applies }
{
    cipher != 64 && cipher != 128
}

#[tactic(auto, unfolding(crate::specs::Refusals::wrong_rounds))]
fn wrong_rounds(rounds: u32) -> bool
    ensures { result ≡ (wrong_rounds rounds).applies }
{
    rounds < 12 || rounds > 255
}

#[tactic(auto, unfolding(crate::specs::Refusals::short_key))]
fn short_key(sealing: bool, key_len: usize) -> bool
    ensures { result ≡ (short_key sealing key_len).applies }
{
    sealing && key_len < 16
}

#[tactic(auto, using(crate::proofs::Laws::Tests::key_tests), unfolding(crate::specs::Refusals::or_else))]
pub fn for_key(cipher: u32, rounds: u32, key_len: usize) -> Result<(), Refusal>
    ensures { number_in result ≡ refusal_of (for_key cipher rounds key_len) }
{
    refuse(wrong_cipher(cipher), Refusal::WrongCipher)?;
    refuse(wrong_rounds(rounds), Refusal::WrongRounds)?;
    refuse(key_len > 32, Refusal::LongKey)
}

#[tactic(auto, using(crate::proofs::Laws::Tests::turn_tests), unfolding(crate::specs::Refusals::or_else))]
pub fn for_turn(sealing: bool, cipher: u32, rounds: u32, key_len: usize) -> Result<(), Refusal>
    ensures { number_in result ≡ refusal_of (for_turn sealing cipher rounds key_len) }
{
    for_key(cipher, rounds, key_len)?;
    refuse(short_key(sealing, key_len), Refusal::ShortKey)
}

#[tactic(auto, using(crate::proofs::Laws::Tests::block_tests), unfolding(crate::specs::Refusals::or_else))]
pub fn for_block(
    sealing: bool,
    cipher: u32,
    rounds: u32,
    key_len: usize,
    block_len: usize,
    out_len: usize,
) -> Result<(), Refusal>
    ensures { number_in result ≡ refusal_of (for_block sealing cipher rounds key_len block_len out_len) }
{
    for_turn(sealing, cipher, rounds, key_len)?;
    refuse(block_len != block_size(cipher), Refusal::WrongBlockLength)?;
    refuse(out_len != block_len, Refusal::WrongOutputLength)
}
