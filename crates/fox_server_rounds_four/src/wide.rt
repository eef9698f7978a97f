// A block of FOX128 in two words of 64 bits, and its round: a round's XORs and "or" act on both halves of a block at once, and four blocks take eight
// registers, where they would take sixteen in words of 32 bits.
ghost use Rattle.std.specs.Prelude.{◌≡◌, ◌+◌, ◌*◌, ◌/◌, ◌%◌, ◌^◌};
ghost use Rattle.fox_rounds.specs.Rounds.{or, elmid128, or128};
ghost use Rattle.fox_server_rounds_four.specs.Wide.{narrow};

use crate::beside::Beside;
use fox_rounds::fox128::{Fox128, pair};
use fox_server_lookups::lookups::{byte_mask, pick_left, pick_right, pick8};
use fox_server_rounds::tables::Tables;

// `l` has LL and then RL, `r` has LR and then RR. So what "or" changes stands in `l` alone.
#[derive(Clone, Copy)]
pub struct Wide128 {
    pub l: u64,
    pub r: u64,
}

// The right 16 bits of each half.
const RIGHTS: u64 = 0x0000_FFFF_0000_FFFF;

// "or" of both halves (001 §2.2.3): each half becomes its right 16 bits, and then the XOR of its left and its right 16 bits.
fn or_halves(w: u64) -> u64
    ensures { result ≡ or (w / 2 ^ 32) * 2 ^ 32 + or (w % 2 ^ 32) }
{
    let q = w & RIGHTS;
    (w / 0x1_0000 & RIGHTS) ^ q ^ (q * 0x1_0000)
}

impl Wide128 {
    // `of` and `narrowed` have names, as the promises of the lanes do: `From` is no plainer.
    pub fn of(x: Fox128) -> Wide128
        ensures { narrow result ≡ x }
    {
        Wide128 {
            l: pair(x.ll, x.rl),
            r: pair(x.lr, x.rr),
        }
    }

    pub fn narrowed(self) -> Fox128
        ensures { result ≡ narrow self }
    {
        Fox128 {
            ll: (self.l / 0x1_0000_0000) as u32,
            lr: (self.r / 0x1_0000_0000) as u32,
            rl: (self.l % 0x1_0000_0000) as u32,
            rr: (self.r % 0x1_0000_0000) as u32,
        }
    }

    pub fn or(self) -> Wide128
        ensures { narrow result ≡ or128 (narrow self) }
    {
        Wide128 {
            l: or_halves(self.l),
            r: self.r,
        }
    }
}

// One round with a round key of two words, k the left and l the right. The last XOR of the round function is done on halves, before they are joined.
pub fn elmid_wide(tables: &Tables<Fox128>, x: Wide128, k: u64, l: u64) -> Wide128
    ensures { narrow result ≡ elmid128 (k * 2 ^ 64 + l) (narrow x) }
{
    let s = tables.s;
    let mask = byte_mask(s);
    let m = pick8(tables.t, mask, x.l ^ x.r ^ k) ^ l;
    let p = pick_left(s, mask, m) ^ ((k / 0x1_0000_0000) as u32);
    let q = pick_right(s, mask, m) ^ ((k % 0x1_0000_0000) as u32);
    let f = pair(p, q);
    Wide128 {
        l: x.l ^ f,
        r: x.r ^ f,
    }
}

impl Beside for Fox128 {
    type Lane = Wide128;

    ghost narrow = { narrow };

    fn lane(self) -> Wide128 {
        Wide128::of(self)
    }

    fn narrowed(x: Wide128) -> Fox128 {
        x.narrowed()
    }

    fn round_beside(x: Wide128, tables: &Tables<Fox128>, left: u64, right: u64) -> Wide128 {
        elmid_wide(tables, x, left, right)
    }

    fn or_beside(x: Wide128) -> Wide128 {
        x.or()
    }

    fn round_four(
        first: &mut Wide128,
        second: &mut Wide128,
        third: &mut Wide128,
        fourth: &mut Wide128,
        tables: &Tables<Fox128>,
        left: u64,
        right: u64,
    ) {
        *first = elmid_wide(tables, *first, left, right);
        *second = elmid_wide(tables, *second, left, right);
        *third = elmid_wide(tables, *third, left, right);
        *fourth = elmid_wide(tables, *fourth, left, right);
    }

    fn round_or_four(
        first: &mut Wide128,
        second: &mut Wide128,
        third: &mut Wide128,
        fourth: &mut Wide128,
        tables: &Tables<Fox128>,
        left: u64,
        right: u64,
    ) {
        *first = elmid_wide(tables, *first, left, right).or();
        *second = elmid_wide(tables, *second, left, right).or();
        *third = elmid_wide(tables, *third, left, right).or();
        *fourth = elmid_wide(tables, *fourth, left, right).or();
    }
}
