// Blocks of a tag: the zero block, and the last block with its subkey. Two blocks are XORed by `Block::xor`.
// A buffer has a fixed size, and its part in use is a slice: there is no heap.
ghost use Rattle.std.specs.Prelude.{◌≡◌, ◌≤◌, length, replicate};
ghost use Rattle.fox_rounds.specs.Skeleton.{size};
ghost use Rattle.fox_refusals.specs.Refusals.{block_size};
ghost use Rattle.fox_block.specs.Block.{state, bytes};
ghost use Rattle.fox_tag.specs.Cmac.{keyed_block};

use fox_engine_block::blocks::{Cipher, laid};
use fox_engine_subkeys::last::last_block;
use fox_rounds::fox64::Fox64;
use fox_rounds::fox128::Fox128;
use fox_rounds::state::State;

// The zero block of the cipher of this number. The cipher stays a number: the promise answers for every one, by `state` of `fox_block`.
pub fn zero(cipher: u32) -> State
    ensures { result ≡ state cipher (replicate (block_size cipher) 0) }
{
    if cipher == 64 {
        State::Of64(Fox64::zero())
    } else {
        State::Of128(Fox128::zero())
    }
}

// The last block with its subkey, from the sealed zero block and what the last block has of the message.
pub fn last<B: Cipher>(x: B, part: &[u8]) -> B
    requires { length part.now ≤ size (B.state x) }
    ensures { B.state result ≡ state B.CIPHER (keyed_block (size (B.state x)) (bytes (B.state x)) part.now) }
{
    let mut room = [0; 16];
    let block = laid(x, &mut room);
    last_block(block, part);
    B::read(block)
}
