// A stretch of a run by the server engine, for either cipher.
ghost use Rattle.std.specs.Prelude.{◌≡◌, ◌+◌, ◌≤◌, length};
ghost use Rattle.fox_server_rounds.specs.Keys.{keys_by};
ghost use Rattle.fox_refusals.specs.Refusals.{block_size};
ghost use Rattle.fox_block.specs.Block.{state};
ghost use Rattle.fox_run.specs.Run.{xor_from};
ghost use Rattle.fox_run.specs.States.{stream};
ghost use Rattle.fox_run.specs.Parts.{Part, Ready};

use fox_engine_block::blocks::Cipher;
use fox_engine_counter::states::Counter;
use fox_engine_run::key_stream::xor_part;
use fox_server_rounds::engine::Engine;
use fox_server_rounds::tables::Tables;
use fox_server_rounds_four::beside::Beside;
use fox_server_run_four::four_blocks::four_blocks;
use fox_server_tables::tbs;

// Seals the block that the run's byte n is in, from that byte on; returns the bytes done.
fn one_block<B: Beside + Counter + Cipher>(
    engine: &Engine<B>,
    x: B,
    n: usize,
    input: &[u8],
    out: &mut [u8],
) -> usize
    requires end { n ≤ 1073741824 }
    requires out { length out.old ≡ length input.now }
    ensures { Part (stream (keys_by B.key_in engine.now.keys.now engine.now.rounds) (B.state x)) n input.now out.old out.new result }
{
    let size = x.size();
    let block = x.counted((n / size) as u32);
    let sealed = engine.turn(true, block);
    xor_part(sealed, n % size, input, out)
}

// Seals four whole blocks where byte n begins a block and the input has four, or else the rest of byte n's block; returns the bytes done.
fn part<B: Beside + Counter + Cipher>(
    engine: &Engine<B>,
    x: B,
    n: usize,
    input: &[u8],
    out: &mut [u8],
) -> usize
    requires end { n + length input.now ≤ 1073741824 }
    requires out { length out.old ≡ length input.now }
    ensures { Part (stream (keys_by B.key_in engine.now.keys.now engine.now.rounds) (B.state x)) n input.now out.old out.new result }
{
    let size = x.size();
    let skip = n % size;
    if input.len() >= 4 * size && skip == 0 {
        four_blocks(engine, x, n, input, out);
        return 4 * size;
    }
    one_block(engine, x, n, input, out)
}

// Seals part after part, up to the end of the input.
fn parts<B: Beside + Counter + Cipher>(
    engine: &Engine<B>,
    x: B,
    n: usize,
    input: &[u8],
    out: &mut [u8],
)
    requires end { n + length input.now ≤ 1073741824 }
    requires out { length out.old ≡ length input.now }
    ensures { out.new ≡ xor_from (stream (keys_by B.key_in engine.now.keys.now engine.now.rounds) (B.state x)) n input.now }
{
    let mut at = 0;
    // No chain of iterators: a part tells how many bytes it did.
    while at < input.len() {
        let done = part(engine, x, n + at, &input[at..], &mut out[at..]);
        at += done;
    }
}

// A function of its own in the compiled code for each cipher, so that the tables of both never lie in the stack together. The engine is built in this
// frame: a function that answers one would hand out what it borrows of its own frame, and one that lends it to a closure would say by the closure's predicates
// what these lines show.
#[inline(never)]
pub(crate) fn run_of<B: Beside + Counter + Cipher>(
    keys: &[u64; 510],
    rounds: usize,
    counter: &[u8],
    n: usize,
    input: &[u8],
    out: &mut [u8],
)
    requires { Ready (block_size B.CIPHER) rounds counter.now n input.now out.old }
    ensures { out.new ≡ xor_from (stream (keys_by B.key_in keys.now rounds) (state B.CIPHER counter.now)) n input.now }
{
    let tables = Tables {
        s: &tbs::tbs(),
        t: &B::joined(),
    };
    let engine = Engine {
        tables: &tables,
        keys,
        rounds,
    };
    parts(&engine, B::read(counter), n, input, out);
}
