// A round of FOX64 by the server engine (001 §4.2.2).
// FOX128's round has other words and other tables, and is no twin of this one.
ghost use Rattle.std.specs.Prelude.{◌≡◌};
ghost use Rattle.fox_layers.specs.Diffusion.{mu4_rows};
ghost use Rattle.fox_rounds.specs.Rounds.{f32, lmid64};
ghost use Rattle.fox_rounds.specs.RoundKeys.{round_key_in64};

use crate::engine::Tabled;
use crate::tables::{Joined, Tables};
use fox_rounds::fox64::Fox64;
use fox_server_lookups::lookups::{byte_mask, pick4};
use fox_server_tables::tbsm4;

impl Joined for Fox64 {
    type Tables = [u32; 1024];

    ghost rows = { mu4_rows };

    ghost entries = { λ t. t };

    fn joined() -> [u32; 1024] {
        tbsm4::tbsm()
    }
}

pub fn f32(tables: &Tables<Fox64>, x: u32, rk: u64) -> u32
    ensures { result ≡ f32 x rk }
{
    let k = (rk / 0x1_0000_0000) as u32;
    let l = (rk % 0x1_0000_0000) as u32;
    let s = tables.s;
    let mask = byte_mask(s);
    pick4(s, mask, pick4(tables.t, mask, x ^ k) ^ l) ^ k
}

pub fn lmid64(tables: &Tables<Fox64>, x: Fox64, rk: u64) -> Fox64
    ensures { result ≡ lmid64 rk x }
{
    let u = f32(tables, x.l ^ x.r, rk);
    Fox64 {
        l: x.l ^ u,
        r: x.r ^ u,
    }
}

impl Tabled for Fox64 {
    ghost key_in = { round_key_in64 };

    fn key_at(keys: &[u64; 510], i: usize) -> (u64, u64) {
        (0, keys[i])
    }

    fn looked_up(self, tables: &Tables<Fox64>, _left: u64, right: u64) -> Fox64 {
        lmid64(tables, self, right)
    }
}
