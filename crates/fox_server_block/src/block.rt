// One block by the server engine: from a prepared key, and from key bytes. Each call builds the tables once, in its own frame, and passes them and the round
// keys to the rounds by reference.
// Cipher, rounds and key come one by one, as C programs hand them over and the promises name them.
ghost use Rattle.std.specs.Prelude.{◌≡◌};
ghost use Rattle.fox_rounds.specs.Skeleton.{turned};
ghost use Rattle.fox_server_rounds.specs.Keys.{keys_by};
ghost use Rattle.fox_refusals.specs.Answer.{answer_of};
ghost use Rattle.fox_refusals.specs.Refusals.{block_size};
ghost use Rattle.fox_block.specs.Block.{state, bytes};
ghost use Rattle.fox_block.specs.Promise.{Turns, TurnsWith};
ghost use Rattle.fox_server_block.specs.Ready.{Ready};
ghost use Rattle.fox_server_key.specs.Prepared.{round_keys_in};

use fox_engine_block::blocks::Cipher;
use fox_refusals::refusal::Refusal;
use fox_refusals::refusals::for_block;
use fox_rounds::fox64::Fox64;
use fox_rounds::fox128::Fox128;
use fox_server_key::prepared::{Prepared, prepare};
use fox_server_rounds::engine::{Engine, Tabled};
use fox_server_rounds::tables::Tables;
use fox_server_tables::tbs;

// Tables and engine are built in this frame: a function that answers an engine would hand out what it borrows of its own frame, and one that lends it to a
// closure would say by the closure's predicates what these lines show.
fn turn_of<B: Tabled + Cipher>(
    sealing: bool,
    keys: &[u64; 510],
    rounds: usize,
    block: &[u8],
    out: &mut [u8],
)
    requires { Ready (block_size B.CIPHER) rounds block.now out.old }
    ensures { out.new ≡ bytes (turned sealing (keys_by B.key_in keys.now rounds) (state B.CIPHER block.now)) }
{
    let tables = Tables {
        s: &tbs::tbs(),
        t: &B::joined(),
    };
    let engine = Engine {
        tables: &tables,
        keys,
        rounds,
    };
    let x = B::read(block);
    let y = engine.turn(sealing, x);
    y.write(out);
}

// From a prepared key: the answer is that of the round keys it holds, also where the caller filled it. So its cipher is any number, and stays one.
pub fn turn(sealing: bool, p: Prepared, block: &[u8], out: &mut [u8]) -> Result<usize, Refusal>
    ensures { TurnsWith sealing p.cipher p.rounds p.key_len (round_keys_in p) block.now out.old out.new (answer_of result) }
{
    for_block(
        sealing,
        p.cipher,
        p.rounds,
        p.key_len,
        block.len(),
        out.len(),
    )?;
    let rounds = p.rounds as usize;
    if p.cipher == 64 {
        turn_of::<Fox64>(sealing, &p.keys, rounds, block, out);
    } else {
        turn_of::<Fox128>(sealing, &p.keys, rounds, block, out);
    }
    Ok(out.len())
}

// From key bytes; the key is prepared within the call.
pub fn turn_from_key(
    sealing: bool,
    cipher: u32,
    rounds: u32,
    key: &[u8],
    block: &[u8],
    out: &mut [u8],
) -> Result<usize, Refusal>
    ensures { Turns sealing cipher rounds key.now block.now out.old out.new (answer_of result) }
{
    for_block(sealing, cipher, rounds, key.len(), block.len(), out.len())?;
    let p = prepare(cipher, rounds, key)?;
    turn(sealing, p, block, out)
}
