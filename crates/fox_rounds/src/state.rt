// A block of either cipher as the words that its rounds work on, and its round, computed without large tables.
ghost use Rattle.std.specs.Prelude.{◌≡◌, ◌+◌, ◌*◌, ◌^◌};
ghost use Rattle.fox_rounds.specs.Skeleton.{size, round, between};

use crate::block::Block;
use crate::fox64::Fox64;
use crate::fox128::Fox128;

#[derive(Clone, Copy)]
pub enum State {
    Of64(Fox64),
    Of128(Fox128),
}

impl Block for State {
    ghost state = { λ x. x };

    fn size(self) -> usize {
        match self {
            State::Of64(x) => x.size(),
            State::Of128(x) => x.size(),
        }
    }

    fn round(self, left: u64, right: u64) -> State {
        match self {
            State::Of64(x) => State::Of64(x.round(left, right)),
            State::Of128(x) => State::Of128(x.round(left, right)),
        }
    }

    fn or(self) -> State {
        match self {
            State::Of64(x) => State::Of64(x.or()),
            State::Of128(x) => State::Of128(x.or()),
        }
    }

    fn io(self) -> State {
        match self {
            State::Of64(x) => State::Of64(x.io()),
            State::Of128(x) => State::Of128(x.io()),
        }
    }

    // States of two ciphers are not XORed: `xor_states` keeps the first.
    fn xor(self, other: State) -> State {
        match (self, other) {
            (State::Of64(x), State::Of64(y)) => State::Of64(x.xor(y)),
            (State::Of128(x), State::Of128(y)) => State::Of128(x.xor(y)),
            _ => self,
        }
    }
}
