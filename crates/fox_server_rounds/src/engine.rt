// The server engine with a key: its tables and a key's round keys, by reference, and what it does with them to one block.
ghost use Rattle.std.specs.Prelude.{◌≡◌, ℕ, List, ◌+◌, ◌*◌, ◌^◌, ◌<◌, ◌≤◌, true};
ghost use Rattle.fox_server_rounds.specs.Keys.{keys_by};
ghost use Rattle.fox_rounds.specs.Skeleton.{round, turned};

use crate::order::place;
use crate::tables::{Joined, Tables};

// A block of a cipher whose rounds the server engine does.
pub trait Tabled: Joined {
    // Round key number i of an array of words.
    ghost key_in: { List ℕ → ℕ → ℕ };

    // It as two words, the left first. FOX64 has no left word.
    fn key_at(keys: &[u64; 510], i: usize) -> (u64, u64)
        requires { i < 255 }
        ensures { result.0 * 2 ^ 64 + result.1 ≡ key_in keys.now i };

    // A round without "or" or "io", by lookups.
    fn looked_up(self, tables: &Tables<Self>, left: u64, right: u64) -> Self
        ensures { Self.state result ≡ round (left * 2 ^ 64 + right) (Self.state self) };
}

#[derive(Drop)]
pub struct Engine<'a, B: Tabled> {
    pub tables: &'a Tables<'a, B>,
    pub keys: &'a [u64; 510],
    pub rounds: usize,
    ghost some: { 1 ≤ rounds },
    ghost few: { rounds ≤ 255 },
}

impl<B: Tabled> Engine<'_, B> {
    // One round with round key number i.
    pub fn round(&self, i: usize, x: B) -> B
        requires { i < 255 }
        ensures { B.state result ≡ round (B.key_in self.now.keys.now i) (B.state x) }
    {
        let (left, right) = B::key_at(self.keys, i);
        x.looked_up(self.tables, left, right)
    }

    // A block sealed or opened: sealing takes the round keys from the first to the last, opening from the last to the first.
    // By number, which is the round key's.
    pub fn turn(&self, sealing: bool, x: B) -> B
        ensures { B.state result ≡ turned sealing (keys_by B.key_in self.now.keys.now self.now.rounds) (B.state x) }
    {
        let last = self.rounds - 1;
        let mut y = x;
        for n in 0..last {
            let i = place(sealing, self.rounds, n);
            y = self.round(i, y).between(sealing);
        }
        let end = place(sealing, self.rounds, last);
        self.round(end, y)
    }

    // A block sealed, for a chain of blocks. This function is called at one place only, so that the compiler inlines it and the state stays in registers from
    // one block to the next.
    pub fn seal(&self, x: B) -> B
        ensures { B.state result ≡ turned true (keys_by B.key_in self.now.keys.now self.now.rounds) (B.state x) }
    {
        let last = self.rounds - 1;
        let mut y = x;
        for i in 0..last {
            y = self.round(i, y).or();
        }
        self.round(last, y)
    }
}
