// A stretch of a run by the card engine, block by block.
ghost use Rattle.std.specs.Prelude.{◌≡◌, ◌+◌, ◌≤◌, ◌<◌, length};
ghost use Rattle.fox_key_schedule.specs.Step.{round_keys_of};
ghost use Rattle.fox_run.specs.Run.{xor_from};
ghost use Rattle.fox_run.specs.States.{stream};
ghost use Rattle.fox_run.specs.Parts.{Part};

use fox_card_block::rounds::turned;
use fox_engine_counter::states::Counter;
use fox_engine_run::key_stream::xor_part;
use fox_key_schedule::schedule::Schedule;
use fox_rounds::block::Block;
use fox_rounds::state::State;

// Seals the block that the run's byte n is in, from that byte on; returns the bytes done. It keeps a frame of its own on the stack, which is not there while
// the key is mixed.
#[inline(never)]
fn one_block(s: Schedule, rounds: u8, x: State, n: usize, input: &[u8], out: &mut [u8]) -> usize
    requires { (1 ≤ rounds) × (n < 1073741824) × (length out.old ≡ length input.now) }
    ensures { Part (stream (round_keys_of s rounds) x) n input.now out.old out.new result }
{
    let size = x.size();
    let sealed = turned(true, s, rounds, x.counted((n / size) as u32));
    xor_part(sealed, n % size, input, out)
}

// Blocks are no chunks of the input, since the first may be the end of a block: each answers how far it went.
pub(crate) fn stretch(s: Schedule, rounds: u8, x: State, n: usize, input: &[u8], out: &mut [u8])
    requires { (1 ≤ rounds) × (n + length input.now ≤ 1073741824) × (length out.old ≡ length input.now) }
    ensures { out.new ≡ xor_from (stream (round_keys_of s rounds) x) n input.now }
{
    let mut at = 0;
    while at < input.len() {
        at += one_block(s, rounds, x, n + at, &input[at..], &mut out[at..]);
    }
}
