// A block of FOX64 beside others: as it is. A round of four reads and writes their words one by one, in blocks that are lent: docs/DECISIONS.md says why.
ghost use Rattle.std.specs.Prelude.{◌≡◌};

use crate::beside::Beside;
use fox_rounds::block::Block;
use fox_rounds::fox64::{Fox64, or};
use fox_server_rounds::engine::Tabled;
use fox_server_rounds::fox64::f32;
use fox_server_rounds::tables::Tables;

impl Beside for Fox64 {
    type Lane = Fox64;

    ghost narrow = { λ x. x };

    fn lane(self) -> Fox64 {
        self
    }

    fn narrowed(x: Fox64) -> Fox64 {
        x
    }

    fn round_beside(x: Fox64, tables: &Tables<Fox64>, left: u64, right: u64) -> Fox64 {
        x.looked_up(tables, left, right)
    }

    fn or_beside(x: Fox64) -> Fox64 {
        x.or()
    }

    fn round_four(
        first: &mut Fox64,
        second: &mut Fox64,
        third: &mut Fox64,
        fourth: &mut Fox64,
        tables: &Tables<Fox64>,
        _left: u64,
        right: u64,
    ) {
        let p = f32(tables, first.l ^ first.r, right);
        let q = f32(tables, second.l ^ second.r, right);
        let u = f32(tables, third.l ^ third.r, right);
        let v = f32(tables, fourth.l ^ fourth.r, right);
        *first = Fox64 {
            l: first.l ^ p,
            r: first.r ^ p,
        };
        *second = Fox64 {
            l: second.l ^ q,
            r: second.r ^ q,
        };
        *third = Fox64 {
            l: third.l ^ u,
            r: third.r ^ u,
        };
        *fourth = Fox64 {
            l: fourth.l ^ v,
            r: fourth.r ^ v,
        };
    }

    fn round_or_four(
        first: &mut Fox64,
        second: &mut Fox64,
        third: &mut Fox64,
        fourth: &mut Fox64,
        tables: &Tables<Fox64>,
        _left: u64,
        right: u64,
    ) {
        let p = f32(tables, first.l ^ first.r, right);
        let q = f32(tables, second.l ^ second.r, right);
        let u = f32(tables, third.l ^ third.r, right);
        let v = f32(tables, fourth.l ^ fourth.r, right);
        *first = Fox64 {
            l: or(first.l ^ p),
            r: first.r ^ p,
        };
        *second = Fox64 {
            l: or(second.l ^ q),
            r: second.r ^ q,
        };
        *third = Fox64 {
            l: or(third.l ^ u),
            r: third.r ^ u,
        };
        *fourth = Fox64 {
            l: or(fourth.l ^ v),
            r: fourth.r ^ v,
        };
    }
}
