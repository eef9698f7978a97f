// Part of a block's rounds by the card engine, and a block in two parts. A card that is interrupted keeps the bytes of the state, the register and the number
// of rounds done, and goes on from them. Every input is answered.
// A state after a few rounds tells of the key: keep it as secret as the key, unchanged, and wipe it.
ghost use Rattle.std.specs.Prelude.{◌≡◌, ◌≤◌, length};
ghost use Rattle.fox_key_schedule.specs.Step.{steps};
ghost use Rattle.fox_refusals.specs.Answer.{answer_of};
ghost use Rattle.fox_card_block.specs.Part.{in_hand, part_answer, TurnsPart, TurnsInTwo};

use crate::rounds::{Hold, rounds_on};
use fox_engine_block::blocks::{Bytes, read};
use fox_key_register::register::Register;
use fox_key_schedule::schedule::Schedule;
use fox_refusals::refusal::Refusal;
use fox_refusals::refusals::for_block;

// The register's value for round number `from`. For the first round it is the schedule's, whatever is handed in; for a later one it is the value handed in, of
// which 24 bits count.
fn in_hand(sealing: bool, s: Schedule, rounds: u8, from: u32, reg: u32) -> Register
    requires { 1 ≤ rounds }
    ensures { result ≡ in_hand sealing (steps s) rounds from reg }
{
    if from == 0 {
        s.first(sealing, rounds)
    } else {
        Register::of(reg)
    }
}

// The rounds from number `from` on, up to the one before number `until`, both at most the number of rounds; answers the register's value for the next round.
pub fn turn_part(
    sealing: bool,
    cipher: u32,
    rounds: u32,
    key: &[u8],
    from: u32,
    until: u32,
    reg: u32,
    block: &[u8],
    out: &mut [u8],
) -> Result<u32, Refusal>
    ensures { TurnsPart sealing cipher rounds key.now from until reg block.now out.old out.new
        (part_answer (length out.old) result) }
{
    for_block(sealing, cipher, rounds, key.len(), block.len(), out.len())?;
    let s = Schedule::of(cipher, key);
    let state = read(cipher, block);
    let first = in_hand(sealing, s, rounds as u8, from, reg);
    let done = rounds_on(
        sealing,
        s,
        from.min(rounds) as u8,
        until.min(rounds) as u8,
        Hold { state, reg: first },
    );
    done.state.write(out);
    Ok(u32::from(done.reg))
}

// A block in two parts, as a card does it that is interrupted after `stop` rounds, or after the last: between the parts it has the state, in `held`, and the
// register. The state stays in `held`, also where `out` has the wrong length: wipe it.
pub fn turn_in_two(
    sealing: bool,
    cipher: u32,
    rounds: u32,
    key: &[u8],
    stop: u32,
    block: &[u8],
    held: &mut [u8],
    out: &mut [u8],
) -> Result<usize, Refusal>
    ensures { TurnsInTwo sealing cipher rounds key.now stop block.now held.old held.new out.old
        out.new (answer_of result) }
{
    let reg = turn_part(sealing, cipher, rounds, key, 0, stop, 0, block, held)?;
    turn_part(sealing, cipher, rounds, key, stop, rounds, reg, held, out)?;
    Ok(out.len())
}
