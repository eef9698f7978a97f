// The prepared key: cipher, rounds, key length in bytes, and the round keys in an array of 510 words: one for each round of FOX64, two for each of FOX128,
// the left first; the rest are 0.
// Cipher, rounds and key come one by one, as C programs hand them over and the promises name them.
ghost use Rattle.std.specs.Prelude.{true, ◌≡◌, ◌≢◌, ◌+◌, ◌*◌, ◌<◌, ◌≤◌, length, slice_set};
ghost use Rattle.fox_key_schedule.specs.Step.{narrow, round_keys_of};
ghost use Rattle.fox_refusals.specs.Refusals.{block_size};
ghost use Rattle.fox_server_key.specs.Prepared.{in_halves, filled, no_key, prepared_words, preparation_of, Prepares};

use fox_key_nonlinear::nl128::Key128;
use fox_key_schedule::schedule::Schedule;
use fox_refusals::refusal::Refusal;
use fox_refusals::refusals::{block_size, for_key};

#[derive(Clone, Copy)]
pub struct Prepared {
    pub cipher: u32,
    pub rounds: u32,
    pub key_len: usize,
    pub keys: [u64; 510],
}

impl Prepared {
    // The bytes of round keys in use.
    pub fn in_use(&self) -> usize
        ensures { result ≡ block_size self.now.cipher * self.now.rounds }
    {
        let rounds = self.rounds as usize;
        block_size(self.cipher) * rounds
    }
}

// Stores round key number i in W words: the right word, and before it the left one where there are two.
fn store<const W: usize>(keys: &mut [u64; 510], i: usize, k: Key128)
    requires { i < 255 }
    ensures one { W ≡ 1 → keys.new ≡ slice_set keys.old i k.right }
    ensures two { W ≢ 1 → keys.new ≡ slice_set (slice_set keys.old (2 * i) k.left) (2 * i + 1) k.right }
{
    if W == 1 {
        keys[i] = k.right;
    } else {
        let at = 2 * i;
        keys[at] = k.left;
        keys[at + 1] = k.right;
    }
}

// The round keys that a schedule gives, in W words each: one for FOX64, two for FOX128. By number, which is the place of a round key.
fn fill<const W: usize>(s: Schedule, rounds: u8) -> [u64; 510]
    requires { (W ≡ 1 → narrow s ≡ true) × (1 ≤ rounds) }
    ensures one { W ≡ 1 → result ≡ filled (round_keys_of s rounds) }
    ensures two { W ≢ 1 → result ≡ filled (in_halves (round_keys_of s rounds)) }
{
    let mut keys = [0; 510];
    let mut reg = s.first(true, rounds);
    for i in 0..rounds as usize {
        let k = s.round_key(reg);
        store::<W>(&mut keys, i, k.key);
        reg = k.next;
    }
    keys
}

// The words of the prepared key of a key of at most 32 bytes, for every number of a cipher, by `prepared_words`.
fn words(cipher: u32, rounds: u8, key: &[u8]) -> [u64; 510]
    requires { (1 ≤ rounds) × (length key.now ≤ 32) }
    ensures { result ≡ prepared_words cipher rounds key.now }
{
    let s = Schedule::of(cipher, key);
    if cipher == 64 {
        fill::<1>(s, rounds)
    } else {
        fill::<2>(s, rounds)
    }
}

// The prepared key of a refused call: all zeros.
#[tactic(auto, unfolding(crate::specs::Prepared::no_key))]
pub fn no_key() -> Prepared
    ensures { result ≡ no_key }
{
    Prepared {
        cipher: 0,
        rounds: 0,
        key_len: 0,
        keys: [0u64; 510],
    }
}

pub fn prepare(cipher: u32, rounds: u32, key: &[u8]) -> Result<Prepared, Refusal>
    ensures { Prepares cipher rounds key.now (preparation_of result) }
{
    for_key(cipher, rounds, key.len())?;
    Ok(Prepared {
        cipher,
        rounds,
        key_len: key.len(),
        keys: words(cipher, rounds as u8, key),
    })
}
