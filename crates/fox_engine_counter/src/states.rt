// Counter blocks as states: how a run counts, in code. The last word is counted on, and what is carried out of it goes into the word before, and on through
// words whose bits are all ones.
ghost use Rattle.std.specs.Prelude.{◌≡◌};
ghost use Rattle.fox_run.specs.States.{carry, counted64, counted128, counted};

use fox_rounds::block::Block;
use fox_rounds::fox64::Fox64;
use fox_rounds::fox128::Fox128;
use fox_rounds::state::State;

// A first counter block, as a state: block number i is made from it.
pub trait Counter: Block {
    fn counted(self, i: u32) -> Self
        ensures { Self.state result ≡ counted (Self.state self) i };
}

fn carry(w: u32, n: u32) -> u32
    ensures { result ≡ carry w n }
{
    ((u64::from(w) + u64::from(n)) / 0x1_0000_0000) as u32
}

// What is carried out of a word when 1 is carried into it. A carry goes on by this mask, since a sum of 64 bits for each word misses a bar of speed
// (docs/DECISIONS.md, "Runs").
fn passed_on(w: u32) -> u32
    ensures { result ≡ carry w 1 }
{
    u32::from(w == u32::MAX)
}

impl Counter for Fox64 {
    fn counted(self, i: u32) -> Fox64
        ensures { result ≡ counted64 self i }
    {
        let a = carry(self.r, i);
        Fox64 {
            l: self.l.wrapping_add(a),
            r: self.r.wrapping_add(i),
        }
    }
}

impl Counter for Fox128 {
    fn counted(self, i: u32) -> Fox128
        ensures { result ≡ counted128 self i }
    {
        let a = carry(self.rr, i);
        let b = a & passed_on(self.rl);
        let c = b & passed_on(self.lr);
        Fox128 {
            ll: self.ll.wrapping_add(c),
            lr: self.lr.wrapping_add(b),
            rl: self.rl.wrapping_add(a),
            rr: self.rr.wrapping_add(i),
        }
    }
}

impl Counter for State {
    fn counted(self, i: u32) -> State {
        match self {
            State::Of64(x) => State::Of64(x.counted(i)),
            State::Of128(x) => State::Of128(x.counted(i)),
        }
    }
}
