// Blocks in two words: read from bytes, and XORed with bytes.
// A buffer has a fixed size, and its part in use is a slice: there is no heap.
ghost use Rattle.std.specs.Prelude.{◌≡◌, ◌<◌, length, take, drop};
ghost use Rattle.fox_rounds.specs.Skeleton.{size};
ghost use Rattle.fox_refusals.specs.Refusals.{block_size};
ghost use Rattle.fox_block.specs.Block.{bytes};
ghost use Rattle.fox_run.specs.Parts.{Xored};
ghost use Rattle.fox_session.specs.InUse.{bytes_in, held_block};

use fox_engine_block::blocks::Bytes;
use fox_engine_run::key_stream::xor_bytes;
use fox_refusals::refusals::block_size;
use fox_rounds::block::Block;
use fox_rounds::state::State;
use fox_session::Pair;

// Not by `laid`, which answers the bytes of a block and promises nothing of the 16 that it lays them in; these two words hold all 16.
pub(crate) fn pair_of_state(x: State) -> Pair
    ensures { take (size x) (bytes_in result) ≡ bytes x }
{
    let mut bytes = [0; 16];
    let size = x.size();
    x.write(&mut bytes[..size]);
    Pair::from(bytes)
}

pub fn read_block(cipher: u32, block: &[u8]) -> Pair
    requires { length block.now ≡ block_size cipher }
    ensures { held_block cipher result ≡ block.now }
{
    let mut bytes = [0; 16];
    let size = block_size(cipher);
    bytes[..size].copy_from_slice(block);
    Pair::from(bytes)
}

// XORs with the bytes of a block from its byte number `skip` on, up to the end of the shorter; returns the count of bytes written.
pub fn xor_block(cipher: u32, block: Pair, skip: usize, input: &[u8], out: &mut [u8]) -> usize
    requires { (skip < block_size cipher) × (length out.old ≡ length input.now) }
    ensures { Xored (drop skip (held_block cipher block)) input.now out.old out.new result }
{
    let bytes = <[u8; 16]>::from(block);
    let size = block_size(cipher);
    xor_bytes(&bytes[skip..size], input, out)
}
