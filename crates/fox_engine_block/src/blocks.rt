// Blocks of bytes as the words of a state, and back: for each cipher, and for a state of either.
ghost use Rattle.std.specs.Prelude.{◌≡◌, ℕ, length, replicate};
ghost use Rattle.fox_rounds.specs.Skeleton.{size};
ghost use Rattle.fox_refusals.specs.Refusals.{block_size};
ghost use Rattle.fox_block.specs.Block.{state64, state128, bytes64, bytes128, state, bytes};
ghost use Rattle.fox_block.proofs.Laws.Block.{sized-64, sized-128};

use fox_bytes::bytes::{load, store_all};
use fox_rounds::block::Block;
use fox_rounds::fox64::Fox64;
use fox_rounds::fox128::Fox128;
use fox_rounds::state::State;

// A block that can be written as bytes.
pub trait Bytes: Block {
    fn write(self, out: &mut [u8])
        requires { length out.old ≡ size (Self.state self) }
        ensures { out.new ≡ bytes (Self.state self) };
}

// A block whose type tells its cipher, so that it can be read from bytes alone.
pub trait Cipher: Bytes {
    ghost CIPHER: { ℕ };

    // 64 or 128, as calls have it.
    const CIPHER: u32;

    fn read(block: &[u8]) -> Self
        requires { length block.now ≡ block_size CIPHER }
        ensures { Self.state result ≡ state CIPHER block.now };

    // The block of zeros.
    fn zero() -> Self
        ensures { Self.state result ≡ state CIPHER (replicate (block_size CIPHER) 0) };

    ghost sized: { (x : Self) → size (Self.state x) ≡ block_size CIPHER };
}

impl Bytes for Fox64 {
    fn write(self, out: &mut [u8])
        requires { length out.old ≡ 8 }
        ensures { out.new ≡ bytes64 self }
    {
        store_all(out, [self.l, self.r]);
    }
}

impl Cipher for Fox64 {
    ghost CIPHER = { 64 };

    ghost sized = { sized-64 };

    const CIPHER: u32 = 64;

    fn read(block: &[u8]) -> Fox64
        requires { length block.now ≡ 8 }
        ensures { result ≡ state64 block.now }
    {
        Fox64::new(load(block, 0), load(block, 4))
    }

    fn zero() -> Fox64 {
        Fox64::new(0, 0)
    }
}

impl Bytes for Fox128 {
    fn write(self, out: &mut [u8])
        requires { length out.old ≡ 16 }
        ensures { out.new ≡ bytes128 self }
    {
        store_all(out, [self.ll, self.lr, self.rl, self.rr]);
    }
}

impl Cipher for Fox128 {
    ghost CIPHER = { 128 };

    ghost sized = { sized-128 };

    const CIPHER: u32 = 128;

    fn read(block: &[u8]) -> Fox128
        requires { length block.now ≡ 16 }
        ensures { result ≡ state128 block.now }
    {
        Fox128::new(
            load(block, 0),
            load(block, 4),
            load(block, 8),
            load(block, 12),
        )
    }

    fn zero() -> Fox128 {
        Fox128::new(0, 0, 0, 0)
    }
}

impl Bytes for State {
    fn write(self, out: &mut [u8]) {
        match self {
            State::Of64(x) => x.write(out),
            State::Of128(x) => x.write(out),
        }
    }
}

// From the bytes of a block of the cipher of this number. The cipher stays a number: the promise answers for every one, by `state` of `fox_block`.
pub fn read(cipher: u32, block: &[u8]) -> State
    requires { length block.now ≡ block_size cipher }
    ensures { result ≡ state cipher block.now }
{
    if cipher == 64 {
        State::Of64(Fox64::read(block))
    } else {
        State::Of128(Fox128::read(block))
    }
}

// The bytes of a block, laid in room for a block of either cipher.
pub fn laid<B: Bytes>(x: B, room: &mut [u8; 16]) -> &mut [u8]
    ensures of { result.now ≡ bytes (B.state x) }
    ensures long { length result.now ≡ size (B.state x) }
{
    let block = &mut room[..x.size()];
    x.write(block);
    block
}
