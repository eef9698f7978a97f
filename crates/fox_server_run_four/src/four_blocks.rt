// Four counter blocks sealed side by side and XORed with the input's next bytes.
ghost use Rattle.std.specs.Prelude.{◌≡◌, ◌++◌, ◌+◌, ◌*◌, ◌%◌, ◌≤◌, length, drop};
ghost use Rattle.fox_layers.specs.Words.{xor_each};
ghost use Rattle.fox_server_rounds.specs.Keys.{keys_by};
ghost use Rattle.fox_refusals.specs.Refusals.{block_size};
ghost use Rattle.fox_block.specs.Block.{bytes};
ghost use Rattle.fox_run.specs.States.{counted, stream};
ghost use Rattle.fox_run.specs.Parts.{XoredTo};

use fox_engine_block::blocks::Cipher;
use fox_engine_counter::states::Counter;
use fox_engine_run::key_stream::xor_whole;
use fox_server_rounds::engine::Engine;
use fox_server_rounds_four::beside::Beside;
use fox_server_rounds_four::four::{Four, seal_four};

fn xor_two<B: Cipher>(x: B, y: B, input: &[u8], out: &mut [u8])
    requires input { 2 * block_size B.CIPHER ≤ length input.now }
    requires out { 2 * block_size B.CIPHER ≤ length out.old }
    ensures { out.new ≡ xor_each (bytes (B.state x) ++ bytes (B.state y)) input.now ++ drop (2 * block_size B.CIPHER) out.old }
{
    let size = x.size();
    xor_whole(x, input, out);
    xor_whole(y, &input[size..], &mut out[size..]);
}

fn xor_four<B: Beside + Cipher>(x: Four<B::Lane>, input: &[u8], out: &mut [u8])
    requires input { 4 * block_size B.CIPHER ≤ length input.now }
    requires out { 4 * block_size B.CIPHER ≤ length out.old }
    ensures { out.new
        ≡ xor_each ((bytes (B.state (B.narrow x.first)) ++ bytes (B.state (B.narrow x.second)))
        ++ (bytes (B.state (B.narrow x.third)) ++ bytes (B.state (B.narrow x.fourth)))) input.now ++ drop (4 * block_size B.CIPHER) out.old }
{
    let p = B::narrowed(x.first);
    let q = B::narrowed(x.second);
    let u = B::narrowed(x.third);
    let v = B::narrowed(x.fourth);
    let half = 2 * p.size();
    xor_two(p, q, input, out);
    xor_two(u, v, &input[half..], &mut out[half..]);
}

fn counted_four<B: Beside + Counter + Cipher>(x: B, i: u32) -> Four<B::Lane>
    requires { i + 3 ≤ 4294967295 }
    ensures { (B.state (B.narrow result.first) ≡ counted (B.state x) i) × (B.state (B.narrow result.second) ≡ counted (B.state x) (i + 1))
        × (B.state (B.narrow result.third) ≡ counted (B.state x) (i + 2)) × (B.state (B.narrow result.fourth) ≡ counted (B.state x) (i + 3)) }
{
    Four {
        first: x.counted(i).lane(),
        second: x.counted(i + 1).lane(),
        third: x.counted(i + 2).lane(),
        fourth: x.counted(i + 3).lane(),
    }
}

// Seals the four blocks from the run's byte n on, which begins a block.
pub fn four_blocks<B: Beside + Counter + Cipher>(
    engine: &Engine<B>,
    x: B,
    n: usize,
    input: &[u8],
    out: &mut [u8],
)
    requires whole { n % block_size B.CIPHER ≡ 0 }
    requires end { n + 4 * block_size B.CIPHER ≤ 1073741824 }
    requires input { 4 * block_size B.CIPHER ≤ length input.now }
    requires out { 4 * block_size B.CIPHER ≤ length out.old }
    ensures { XoredTo (stream (keys_by B.key_in engine.now.keys.now engine.now.rounds) (B.state x)) n input.now out.old (4 * block_size B.CIPHER) out.new }
{
    let blocks = counted_four(x, (n / x.size()) as u32);
    let sealed = seal_four(engine, blocks);
    xor_four::<B>(sealed, input, out);
}
