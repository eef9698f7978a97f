// A round of FOX128 by the server engine (001 §4.2.2).
// FOX64's round has other words and other tables, and is no twin of this one.
ghost use Rattle.std.specs.Prelude.{◌≡◌, ◌+◌, ◌*◌, ◌^◌};
ghost use Rattle.fox_layers.specs.Diffusion.{mu8_rows};
ghost use Rattle.fox_rounds.specs.Rounds.{elmid128};
ghost use Rattle.fox_rounds.specs.RoundKeys.{round_key_in128};

use crate::engine::Tabled;
use crate::tables::{Joined, Tables};
use fox_rounds::fox128::Fox128;
use fox_server_lookups::lookups::{byte_mask, pick4, pick8};
use fox_server_tables::tbsm8;

impl Joined for Fox128 {
    type Tables = [u64; 2048];

    ghost rows = { mu8_rows };

    ghost entries = { λ t. t };

    fn joined() -> [u64; 2048] {
        tbsm8::tbsm()
    }
}

// One round: the second substitution and the XORs after it are done on halves of 32 bits, as wide as the state's words.
pub fn elmid128(tables: &Tables<Fox128>, x: Fox128, k: u64, l: u64) -> Fox128
    ensures { result ≡ elmid128 (k * 2 ^ 64 + l) x }
{
    let s = tables.s;
    let mask = byte_mask(s);
    let m = pick8(tables.t, mask, x.round_input() ^ k) ^ l;
    let p = pick4(s, mask, (m / 0x1_0000_0000) as u32) ^ ((k / 0x1_0000_0000) as u32);
    let q = pick4(s, mask, (m % 0x1_0000_0000) as u32) ^ ((k % 0x1_0000_0000) as u32);
    Fox128 {
        ll: x.ll ^ p,
        lr: x.lr ^ p,
        rl: x.rl ^ q,
        rr: x.rr ^ q,
    }
}

impl Tabled for Fox128 {
    ghost key_in = { round_key_in128 };

    fn key_at(keys: &[u64; 510], i: usize) -> (u64, u64) {
        (keys[2 * i], keys[2 * i + 1])
    }

    fn looked_up(self, tables: &Tables<Fox128>, left: u64, right: u64) -> Fox128 {
        elmid128(tables, self, left, right)
    }
}
