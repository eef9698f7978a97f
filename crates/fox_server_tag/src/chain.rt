// The tag of a message by the server engine (SP 800-38B §6.2), for either cipher, block after block: a tag's blocks depend on one another.
ghost use Rattle.std.specs.Prelude.{◌≡◌, ◌*◌, ◌≤◌, length};
ghost use Rattle.fox_server_rounds.specs.Keys.{keys_by};
ghost use Rattle.fox_refusals.specs.Refusals.{block_size};
ghost use Rattle.fox_block.specs.Block.{state};
ghost use Rattle.fox_tag.specs.Tag.{tag_with, chain_of};

use fox_engine_block::blocks::Cipher;
use fox_engine_subkeys::parts::{blocks_before, last_part};
use fox_engine_tag::states::last;
use fox_server_rounds::engine::{Engine, Tabled};
use fox_server_rounds::tables::Tables;
use fox_server_tables::tbs;

// Chains the first n blocks of the message. A function of its own in the compiled code, so that its loop has the registers for itself.
#[inline(never)]
fn chain<B: Tabled + Cipher>(engine: &Engine<B>, message: &[u8], n: usize) -> B
    requires { n * block_size B.CIPHER ≤ length message.now }
    ensures { B.state result ≡ state B.CIPHER (chain_of B.CIPHER (keys_by B.key_in engine.now.keys.now engine.now.rounds) message.now n) }
{
    let mut y = B::zero();
    let size = y.size();
    for part in message[..n * size].chunks_exact(size) {
        y = engine.seal(y.xor(B::read(part)));
    }
    y
}

fn tagged<B: Tabled + Cipher>(engine: &Engine<B>, message: &[u8]) -> B
    ensures { B.state result ≡ state B.CIPHER (tag_with B.CIPHER (keys_by B.key_in engine.now.keys.now engine.now.rounds) message.now) }
{
    let x = engine.turn(true, B::zero());
    let size = x.size();
    let z = last(x, last_part(message, size));
    let n = blocks_before(message, size);
    let y = chain(engine, message, n);
    engine.turn(true, y.xor(z))
}

// A function of its own in the compiled code for each cipher, so that the tables of both never lie in the stack together. Tables are made once for all blocks,
// and the engine with them, in this frame: a function that answers an engine would hand out what it borrows of its own frame, and one that lends it to a closure
// would say by the closure's predicates what these lines show.
#[inline(never)]
pub(crate) fn tag_of<B: Tabled + Cipher>(keys: &[u64; 510], rounds: usize, message: &[u8]) -> B
    requires { (1 ≤ rounds) × (rounds ≤ 255) }
    ensures { B.state result ≡ state B.CIPHER (tag_with B.CIPHER (keys_by B.key_in keys.now rounds) message.now) }
{
    let tables = Tables {
        s: &tbs::tbs(),
        t: &B::joined(),
    };
    let engine = Engine {
        tables: &tables,
        keys,
        rounds,
    };
    tagged(&engine, message)
}
