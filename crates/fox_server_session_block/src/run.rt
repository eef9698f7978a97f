// A run, by the round keys in an array and its first counter block in two words: the sealed counter block that a position is in, and whole blocks.
ghost use Rattle.std.specs.Prelude.{◌≡◌, true, ◌+◌, ◌≤◌, ◌<◌, length};
ghost use Rattle.fox_rounds.specs.Skeleton.{round, turned};
ghost use Rattle.fox_run.specs.Run.{run_with};
ghost use Rattle.fox_session.specs.InUse.{held_block, BlockAt};
ghost use Rattle.fox_server_key.specs.Prepared.{held_keys};
ghost use Rattle.fox_server_session_block.specs.Keys.{held_key};

use crate::block::pair_of_state;
use fox_engine_block::blocks::read;
use fox_engine_counter::states::Counter;
use fox_refusals::refusals::block_size;
use fox_rounds::block::Block;
use fox_rounds::state::State;
use fox_server_run::run::stretch;
use fox_session::Pair;

#[derive(Clone, Copy)]
pub struct Run<'a> {
    pub cipher: u32,
    pub keys: &'a [u64; 510],
    pub rounds: usize,
    pub counter: Pair,
    pub ghost rounds_in: { (1 ≤ rounds) × (rounds ≤ 255) },
}

impl Run<'_> {
    // One round with round key number i, which is one word for FOX64 and two for FOX128. The two cases stay, as the cipher is a number here, which a caller may
    // have filled in.
    fn round_at(&self, i: usize, x: State) -> State
        requires { i < 255 }
        ensures { result ≡ round (held_key self.now.cipher self.now.keys.now i) x }
    {
        if self.cipher == 64 {
            return x.round(0, self.keys[i]);
        }
        x.round(self.keys[2 * i], self.keys[2 * i + 1])
    }

    // One block sealed with its rounds worked out: for a single block that takes less time than making tables.
    // By number, which is the round key's.
    fn sealed(&self, x: State) -> State
        ensures { result ≡ turned true (held_keys self.now.cipher self.now.keys.now self.now.rounds) x }
    {
        let last = self.rounds - 1;
        let mut y = x;
        for i in 0..last {
            y = self.round_at(i, y).between(true);
        }
        self.round_at(last, y)
    }

    // The sealed counter block that a position is in; two words of 0 at the run's end, where there is none.
    pub fn block_at(&self, position: usize) -> Pair
        requires { position ≤ 1073741824 }
        ensures { BlockAt self.now.cipher (held_keys self.now.cipher self.now.keys.now self.now.rounds)
            (held_block self.now.cipher self.now.counter) position result }
    {
        if position == 1_073_741_824 {
            return Pair { left: 0, right: 0 };
        }
        let bytes = <[u8; 16]>::from(self.counter);
        let size = block_size(self.cipher);
        let first = read(self.cipher, &bytes[..size]);
        let here = first.counted((position / size) as u32);
        let block = self.sealed(here);
        pair_of_state(block)
    }

    // Whole blocks from byte n on. Where there are none, no table is made.
    pub fn whole_blocks(&self, n: usize, input: &[u8], out: &mut [u8])
        requires within { n + length input.now ≤ 1073741824 }
        requires out_len { length out.old ≡ length input.now }
        ensures { out.new
            ≡ run_with self.now.cipher (held_keys self.now.cipher self.now.keys.now self.now.rounds) (held_block self.now.cipher self.now.counter) n input.now }
    {
        if input.is_empty() {
            return;
        }
        let first = <[u8; 16]>::from(self.counter);
        let size = block_size(self.cipher);
        stretch(
            self.cipher,
            self.keys,
            self.rounds,
            &first[..size],
            n,
            input,
            out,
        );
    }
}
