// Four blocks sealed side by side, with tables and round keys passed by reference: each round key is read once for the four.
// There is one round with "or" and one without it. Each is called at one place only, so that the compiler inlines it and the states stay in registers; by
// closures, it does not.
ghost use Rattle.std.specs.Prelude.{◌≡◌, ◌+◌, ◌*◌, ◌^◌, true};
ghost use Rattle.fox_rounds.specs.Skeleton.{round, between, turned};
ghost use Rattle.fox_server_rounds.specs.Keys.{keys_by};
ghost use Rattle.fox_server_rounds_four.specs.Each.{Each};

use crate::beside::Beside;
use fox_server_rounds::engine::Engine;
use fox_server_rounds::tables::Tables;

#[derive(Clone, Copy)]
pub struct Four<L> {
    pub first: L,
    pub second: L,
    pub third: L,
    pub fourth: L,
}

// By the number of the round key. The round functions of the two ciphers have the words of their blocks, and stand in fox64.rt and wide.rt.
pub fn seal_four<B: Beside>(engine: &Engine<B>, x: Four<B::Lane>) -> Four<B::Lane>
    ensures { Each (λ a b. B.state (B.narrow b) ≡ turned true (keys_by B.key_in engine.now.keys.now engine.now.rounds) (B.state (B.narrow a))) x result }
{
    let last = engine.rounds - 1;
    let mut y = x;
    for i in 0..last {
        let (left, right) = B::key_at(engine.keys, i);
        B::round_or_four(
            &mut y.first,
            &mut y.second,
            &mut y.third,
            &mut y.fourth,
            engine.tables,
            left,
            right,
        );
    }
    let (left, right) = B::key_at(engine.keys, last);
    B::round_four(
        &mut y.first,
        &mut y.second,
        &mut y.third,
        &mut y.fourth,
        engine.tables,
        left,
        right,
    );
    y
}
