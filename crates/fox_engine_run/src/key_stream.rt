// Sealed counter blocks XORed with bytes: a whole block word by word, and a part of a block, at either end of a stretch, byte by byte. Each function writes
// through the part of the output that starts at its first byte, and nothing past its own bytes.
// A buffer has a fixed size, and its part in use is a slice: there is no heap.
ghost use Rattle.std.specs.Prelude.{◌≡◌, ◌++◌, ◌≤◌, ◌<◌, length, drop};
ghost use Rattle.fox_layers.specs.Words.{xor_each};
ghost use Rattle.fox_rounds.specs.Skeleton.{size};
ghost use Rattle.fox_block.specs.Block.{bytes};
ghost use Rattle.fox_run.specs.Parts.{Xored};

use fox_engine_block::blocks::{Bytes, Cipher, laid};
use fox_rounds::block::Block;

// XORs up to the end of the shorter; returns the count of bytes written. The output goes by its index: tried by `zip` over its `iter_mut`, the proof does not
// close, since the loop has no name for the output then.
pub fn xor_bytes(stream: &[u8], input: &[u8], out: &mut [u8]) -> usize
    requires { length out.old ≡ length input.now }
    ensures { Xored stream.now input.now out.old out.new result }
{
    for (i, (a, b)) in stream.iter().zip(input).enumerate() {
        out[i] = *a ^ *b;
    }
    stream.len().min(input.len())
}

// XORs with the bytes of a block from its byte number `skip` on.
pub fn xor_part<B: Bytes>(x: B, skip: usize, input: &[u8], out: &mut [u8]) -> usize
    requires { (skip < size (B.state x)) × (length out.old ≡ length input.now) }
    ensures { Xored (drop skip (bytes (B.state x))) input.now out.old out.new result }
{
    let mut room = [0; 16];
    let stream = laid(x, &mut room);
    xor_bytes(&stream[skip..], input, out)
}

// XORs a block with as many bytes of the input.
pub fn xor_whole<B: Cipher>(x: B, input: &[u8], out: &mut [u8])
    requires { (size (B.state x) ≤ length input.now) × (size (B.state x) ≤ length out.old) }
    ensures { out.new ≡ xor_each (bytes (B.state x)) input.now ++ drop (size (B.state x)) out.old }
{
    let size = x.size();
    x.xor(B::read(&input[..size])).write(&mut out[..size]);
}
