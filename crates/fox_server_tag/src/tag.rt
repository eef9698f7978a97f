// Making and testing a tag by the server engine, from a prepared key and from key bytes: every input is answered.
// Cipher, rounds and key come one by one, as C programs hand them over and the promises name them.
ghost use Rattle.std.specs.Prelude.{◌≡◌, ◌⊎◌, ◌≤◌};
ghost use Rattle.fox_refusals.specs.Answer.{answer_of, verdict_of};
ghost use Rattle.fox_block.specs.Block.{state};
ghost use Rattle.fox_server_key.specs.Prepared.{held_keys, round_keys_in};
ghost use Rattle.fox_tag.specs.Tag.{tag_with};
ghost use Rattle.fox_tag.specs.Promise.{MakesTag, MakesTagWith, TestsTag, TestsTagWith};

use crate::chain::tag_of;
use fox_engine_block::blocks::Bytes;
use fox_engine_tag::verdict::verdict;
use fox_refusals::refusal::Refusal;
use fox_refusals::tags::for_tag;
use fox_rounds::state::State;
use fox_server_key::prepared::{Prepared, prepare};

// The cipher comes from a prepared key, whose fields any caller may fill in, and stays a number: the promise is by `state cipher`.
fn tag(cipher: u32, keys: &[u64; 510], rounds: usize, message: &[u8]) -> State
    requires { ((cipher ≡ 64) ⊎ (cipher ≡ 128)) × (1 ≤ rounds) × (rounds ≤ 255) }
    ensures { result ≡ state cipher (tag_with cipher (held_keys cipher keys.now rounds) message.now) }
{
    if cipher == 64 {
        State::Of64(tag_of(keys, rounds, message))
    } else {
        State::Of128(tag_of(keys, rounds, message))
    }
}

// From a prepared key that is lent, so that it is not copied: the answer is that of the round keys it holds, also where the caller filled it.
pub fn make_by(p: &Prepared, message: &[u8], out: &mut [u8]) -> Result<usize, Refusal>
    ensures { MakesTagWith p.now.cipher p.now.rounds p.now.key_len (round_keys_in p.now) message.now out.old out.new (answer_of result) }
{
    for_tag(
        true,
        p.cipher,
        p.rounds,
        p.key_len,
        message.len(),
        out.len(),
    )?;
    let y = tag(p.cipher, &p.keys, p.rounds as usize, message);
    y.write(out);
    Ok(out.len())
}

// From a prepared key: the answer is that of the round keys it holds, also where the caller filled it.
pub fn make(p: Prepared, message: &[u8], out: &mut [u8]) -> Result<usize, Refusal>
    ensures { MakesTagWith p.cipher p.rounds p.key_len (round_keys_in p) message.now out.old out.new (answer_of result) }
{
    make_by(&p, message, out)
}

pub fn test(p: Prepared, message: &[u8], stored: &[u8]) -> Result<(), Refusal>
    ensures { TestsTagWith p.cipher p.rounds p.key_len (round_keys_in p) message.now stored.now (verdict_of result) }
{
    for_tag(
        false,
        p.cipher,
        p.rounds,
        p.key_len,
        message.len(),
        stored.len(),
    )?;
    let y = tag(p.cipher, &p.keys, p.rounds as usize, message);
    verdict(y, stored)
}

// From key bytes; the key is prepared within the call.
pub fn make_from_key(
    cipher: u32,
    rounds: u32,
    key: &[u8],
    message: &[u8],
    out: &mut [u8],
) -> Result<usize, Refusal>
    ensures { MakesTag cipher rounds key.now message.now out.old out.new (answer_of result) }
{
    for_tag(true, cipher, rounds, key.len(), message.len(), out.len())?;
    let p = prepare(cipher, rounds, key)?;
    make(p, message, out)
}

pub fn test_from_key(
    cipher: u32,
    rounds: u32,
    key: &[u8],
    message: &[u8],
    stored: &[u8],
) -> Result<(), Refusal>
    ensures { TestsTag cipher rounds key.now message.now stored.now (verdict_of result) }
{
    for_tag(
        false,
        cipher,
        rounds,
        key.len(),
        message.len(),
        stored.len(),
    )?;
    let p = prepare(cipher, rounds, key)?;
    test(p, message, stored)
}
