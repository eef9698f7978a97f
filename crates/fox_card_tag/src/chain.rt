// The tag of a message by the card engine (SP 800-38B §6.2), in two steps that each have sealing at one place only: every such place costs a copy of the
// schedule on the stack. Both work in the tag's own buffer: the first step leaves the last block with its subkey there, the second the tag.
ghost use Rattle.std.specs.Prelude.{◌≡◌, cond, ltb, ◌*◌, ◌≤◌, length, replicate};
ghost use Rattle.fox_layers.specs.Words.{xor_each};
ghost use Rattle.fox_key_schedule.specs.Schedule.{round_keys};
ghost use Rattle.fox_refusals.specs.Refusals.{block_size};
ghost use Rattle.fox_block.specs.Block.{state, seal_with};
ghost use Rattle.fox_tag.specs.Cmac.{blocks_before, block_at, last_at, keyed_block};
ghost use Rattle.fox_tag.specs.Tag.{chain_of, tag_with};

use fox_card_block::rounds::turned;
use fox_engine_block::blocks::{Bytes, read};
use fox_engine_subkeys::last::last_block;
use fox_engine_subkeys::parts::{block_part, blocks_before, last_part};
use fox_engine_tag::states::zero;
use fox_key_schedule::schedule::Schedule;
use fox_rounds::block::Block;
use fox_rounds::state::State;

// Block number i of a message: one of the n before the last, or `last`.
fn block_at(cipher: u32, message: &[u8], n: usize, last: &[u8], i: usize) -> State
    requires { (n * block_size cipher ≤ length message.now) × (length last.now ≡ block_size cipher) }
    ensures { result ≡ state cipher (cond (ltb i n) (block_at (block_size cipher) message.now i) last.now) }
{
    if i < n {
        read(cipher, block_part(message, last.len(), i))
    } else {
        read(cipher, last)
    }
}

// Leaves the last block with its subkey in the buffer.
fn last_into(cipher: u32, rounds: u8, key: &[u8], message: &[u8], out: &mut [u8])
    requires { (1 ≤ rounds) × (length key.now ≤ 32) × (length out.old ≡ block_size cipher) }
    ensures { out.new ≡ keyed_block (block_size cipher)
        (seal_with cipher (round_keys cipher rounds key.now) (replicate (block_size cipher) 0))
        (last_at (block_size cipher) message.now) }
{
    let s = Schedule::of(cipher, key);
    turned(true, s, rounds, zero(cipher)).write(out);
    let part = last_part(message, out.len());
    last_block(out, part);
}

// Chains all blocks; the buffer holds the last one, and then the outcome. Blocks go by number, and are no chunks of the message: the last is elsewhere, and a
// second place that seals would take more of the stack.
fn chain(cipher: u32, rounds: u8, key: &[u8], message: &[u8], out: &mut [u8])
    requires { (1 ≤ rounds) × (length key.now ≤ 32) × (length out.old ≡ block_size cipher) }
    ensures { out.new ≡ seal_with cipher (round_keys cipher rounds key.now)
        (xor_each (chain_of cipher (round_keys cipher rounds key.now) message.now (blocks_before (block_size cipher) message.now))
        out.old) }
{
    let s = Schedule::of(cipher, key);
    let n = blocks_before(message, out.len());
    let mut y = zero(cipher);
    for i in 0..n + 1 {
        y = turned(true, s, rounds, y.xor(block_at(cipher, message, n, out, i)));
    }
    y.write(out);
}

pub(crate) fn tag(cipher: u32, rounds: u8, key: &[u8], message: &[u8], out: &mut [u8])
    requires { (1 ≤ rounds) × (length key.now ≤ 32) × (length out.old ≡ block_size cipher) }
    ensures { out.new ≡ tag_with cipher (round_keys cipher rounds key.now) message.now }
{
    last_into(cipher, rounds, key, message, out);
    chain(cipher, rounds, key, message, out);
}
