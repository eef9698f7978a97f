// The station's calls by the server engine, on numbers and byte slices. Each returns the refusal number, 0 for success, from which the count follows: the
// output length, or 0; a test of a tag has no output, and count 0. The key is prepared within the call. Sealing and opening have a function each, since C
// programs call them by these names.
#![tactic(auto, using(fox_refusals::proofs::Laws::Reply::reply_handed))]

ghost use Rattle.std.specs.Prelude.{true, false};
ghost use Rattle.fox_station.specs.Exports.{RunHanded, TurnHanded, MakeTagHanded, TestTagHanded};

use fox_refusals::refusal::number_in;
use fox_server_block::block::turn_from_key;
use fox_server_run::run::run_from_key;
use fox_server_tag::tag::{make_from_key, test_from_key};

#[unsafe(no_mangle)]
pub extern "C" fn fox_server_seal_block(
    cipher: u32,
    rounds: u32,
    key: &[u8],
    block: &[u8],
    out: &mut [u8],
) -> u32
    ensures { TurnHanded true cipher rounds key.now block.now out.old out.new result }
{
    number_in(turn_from_key(true, cipher, rounds, key, block, out))
}

#[unsafe(no_mangle)]
pub extern "C" fn fox_server_open_block(
    cipher: u32,
    rounds: u32,
    key: &[u8],
    block: &[u8],
    out: &mut [u8],
) -> u32
    ensures { TurnHanded false cipher rounds key.now block.now out.old out.new result }
{
    number_in(turn_from_key(false, cipher, rounds, key, block, out))
}

#[unsafe(no_mangle)]
pub extern "C" fn fox_server_seal_run(
    cipher: u32,
    rounds: u32,
    key: &[u8],
    counter: &[u8],
    offset: u64,
    input: &[u8],
    out: &mut [u8],
) -> u32
    ensures { RunHanded true cipher rounds key.now counter.now offset input.now out.old out.new result }
{
    number_in(run_from_key(true, cipher, rounds, key, counter, offset, input, out))
}

#[unsafe(no_mangle)]
pub extern "C" fn fox_server_open_run(
    cipher: u32,
    rounds: u32,
    key: &[u8],
    counter: &[u8],
    offset: u64,
    input: &[u8],
    out: &mut [u8],
) -> u32
    ensures { RunHanded false cipher rounds key.now counter.now offset input.now out.old out.new result }
{
    number_in(run_from_key(false, cipher, rounds, key, counter, offset, input, out))
}

#[unsafe(no_mangle)]
pub extern "C" fn fox_server_make_tag(
    cipher: u32,
    rounds: u32,
    key: &[u8],
    message: &[u8],
    tag: &mut [u8],
) -> u32
    ensures { MakeTagHanded cipher rounds key.now message.now tag.old tag.new result }
{
    number_in(make_from_key(cipher, rounds, key, message, tag))
}

#[unsafe(no_mangle)]
pub extern "C" fn fox_server_test_tag(
    cipher: u32,
    rounds: u32,
    key: &[u8],
    message: &[u8],
    tag: &[u8],
) -> u32
    ensures { TestTagHanded cipher rounds key.now message.now tag.now result }
{
    number_in(test_from_key(cipher, rounds, key, message, tag))
}
