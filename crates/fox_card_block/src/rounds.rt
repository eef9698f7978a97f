// Sealing and opening by the card engine: each round key is made when its round comes, at the register's value for that round, and hands on the value for the
// next. Between any two rounds the block can be stopped, and gone on with later.
ghost use Rattle.std.specs.Prelude.{◌≡◌, ◌-◌, ◌≤◌};
ghost use Rattle.fox_rounds.specs.Skeleton.{turned};
ghost use Rattle.fox_key_schedule.specs.Step.{round_key_at, steps, round_keys_of};
ghost use Rattle.fox_card_block.specs.Hold.{led, round_on, rounds_on};

use fox_key_register::register::Register;
use fox_key_schedule::schedule::Schedule;
use fox_rounds::block::Block;
use fox_rounds::state::State;

// A block between two rounds: its state as the last round left it, before "or" or "io", and the register's value for the next round.
#[derive(Clone, Copy)]
pub struct Hold {
    pub state: State,
    pub reg: Register,
}

// The state as round number i takes it, with "or" or "io" before every round but the first.
fn led(sealing: bool, i: u8, y: State) -> State
    ensures { result ≡ led sealing i y }
{
    if i == 0 { y } else { y.between(sealing) }
}

// Round number i.
fn round_on(sealing: bool, s: Schedule, i: u8, h: Hold) -> Hold
    ensures { result ≡ round_on sealing (round_key_at s) (steps s) i h }
{
    let k = s.round_key(h.reg);
    let y = led(sealing, i, h.state);
    Hold {
        state: y.round(k.key.left, k.key.right),
        reg: k.onward(sealing),
    }
}

// The rounds from number `from` on, up to the one before number `until`, by the number that `led` takes.
pub(crate) fn rounds_on(sealing: bool, s: Schedule, from: u8, until: u8, h: Hold) -> Hold
    ensures { result ≡ rounds_on sealing (round_key_at s) (steps s) from (until - from) h }
{
    let mut now = h;
    for i in from..until {
        now = round_on(sealing, s, i, now);
    }
    now
}

pub fn turned(sealing: bool, s: Schedule, rounds: u8, x: State) -> State
    requires { 1 ≤ rounds }
    ensures { result ≡ turned sealing (round_keys_of s rounds) x }
{
    let reg = s.first(sealing, rounds);
    let done = rounds_on(sealing, s, 0, rounds, Hold { state: x, reg });
    done.state
}
