// The station's calls by the card engine, on numbers and byte slices. Each returns the refusal number, 0 for success, from which the count follows: the
// output length, or 0; a test of a tag has no output, and count 0. Sealing and opening have a function each, since C programs call them by these names.
#![tactic(auto, using(fox_refusals::proofs::Laws::Reply::reply_handed))]

ghost use Rattle.std.specs.Prelude.{true, false};
ghost use Rattle.fox_station.specs.Exports.{RunHanded, TurnHanded, MakeTagHanded, TestTagHanded};

use fox_card_block::block::turn;
use fox_card_run::run::run;
use fox_card_tag::tag::{make, test};
use fox_refusals::refusal::number_in;

#[unsafe(no_mangle)]
pub extern "C" fn fox_card_seal_block(
    cipher: u32,
    rounds: u32,
    key: &[u8],
    block: &[u8],
    out: &mut [u8],
) -> u32
    ensures { TurnHanded true cipher rounds key.now block.now out.old out.new result }
{
    number_in(turn(true, cipher, rounds, key, block, out))
}

#[unsafe(no_mangle)]
pub extern "C" fn fox_card_open_block(
    cipher: u32,
    rounds: u32,
    key: &[u8],
    block: &[u8],
    out: &mut [u8],
) -> u32
    ensures { TurnHanded false cipher rounds key.now block.now out.old out.new result }
{
    number_in(turn(false, cipher, rounds, key, block, out))
}

#[unsafe(no_mangle)]
pub extern "C" fn fox_card_seal_run(
    cipher: u32,
    rounds: u32,
    key: &[u8],
    counter: &[u8],
    offset: u64,
    input: &[u8],
    out: &mut [u8],
) -> u32
    ensures { RunHanded true cipher rounds key.now counter.now offset input.now out.old out.new result }
{
    number_in(run(true, cipher, rounds, key, counter, offset, input, out))
}

#[unsafe(no_mangle)]
pub extern "C" fn fox_card_open_run(
    cipher: u32,
    rounds: u32,
    key: &[u8],
    counter: &[u8],
    offset: u64,
    input: &[u8],
    out: &mut [u8],
) -> u32
    ensures { RunHanded false cipher rounds key.now counter.now offset input.now out.old out.new result }
{
    number_in(run(false, cipher, rounds, key, counter, offset, input, out))
}

#[unsafe(no_mangle)]
pub extern "C" fn fox_card_make_tag(
    cipher: u32,
    rounds: u32,
    key: &[u8],
    message: &[u8],
    tag: &mut [u8],
) -> u32
    ensures { MakeTagHanded cipher rounds key.now message.now tag.old tag.new result }
{
    number_in(make(cipher, rounds, key, message, tag))
}

#[unsafe(no_mangle)]
pub extern "C" fn fox_card_test_tag(
    cipher: u32,
    rounds: u32,
    key: &[u8],
    message: &[u8],
    tag: &[u8],
) -> u32
    ensures { TestTagHanded cipher rounds key.now message.now tag.now result }
{
    number_in(test(cipher, rounds, key, message, tag))
}
