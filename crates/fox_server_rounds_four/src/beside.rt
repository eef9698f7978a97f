// A block as it stands beside others: in words that a round works on fastest where several blocks go side by side.
ghost use Rattle.std.specs.Prelude.{◌≡◌, ◌+◌, ◌*◌, ◌^◌, true};
ghost use Rattle.fox_rounds.specs.Skeleton.{round, between};

use fox_server_rounds::engine::Tabled;
use fox_server_rounds::tables::Tables;

pub trait Beside: Tabled {
    type Lane: Copy;

    // The block that a lane has.
    ghost narrow: { Self.Lane → Self };

    fn lane(self) -> Self::Lane
        ensures { narrow result ≡ self };

    fn narrowed(x: Self::Lane) -> Self
        ensures { result ≡ narrow x };

    // A round without "or", by lookups, and "or".
    fn round_beside(x: Self::Lane, tables: &Tables<Self>, left: u64, right: u64) -> Self::Lane
        ensures { Self.state (narrow result) ≡ round (left * 2 ^ 64 + right) (Self.state (narrow x)) };

    fn or_beside(x: Self::Lane) -> Self::Lane
        ensures { Self.state (narrow result) ≡ between true (Self.state (narrow x)) };

    // A round of four blocks with one round key, and one with "or" after it.
    fn round_four(
        first: &mut Self::Lane,
        second: &mut Self::Lane,
        third: &mut Self::Lane,
        fourth: &mut Self::Lane,
        tables: &Tables<Self>,
        left: u64,
        right: u64,
    )
        ensures first { Self.state (narrow first.new) ≡ round (left * 2 ^ 64 + right) (Self.state (narrow first.old)) }
        ensures second { Self.state (narrow second.new) ≡ round (left * 2 ^ 64 + right) (Self.state (narrow second.old)) }
        ensures third { Self.state (narrow third.new) ≡ round (left * 2 ^ 64 + right) (Self.state (narrow third.old)) }
        ensures fourth { Self.state (narrow fourth.new) ≡ round (left * 2 ^ 64 + right) (Self.state (narrow fourth.old)) };

    fn round_or_four(
        first: &mut Self::Lane,
        second: &mut Self::Lane,
        third: &mut Self::Lane,
        fourth: &mut Self::Lane,
        tables: &Tables<Self>,
        left: u64,
        right: u64,
    )
        ensures first { Self.state (narrow first.new) ≡ between true (round (left * 2 ^ 64 + right) (Self.state (narrow first.old))) }
        ensures second { Self.state (narrow second.new) ≡ between true (round (left * 2 ^ 64 + right) (Self.state (narrow second.old))) }
        ensures third { Self.state (narrow third.new) ≡ between true (round (left * 2 ^ 64 + right) (Self.state (narrow third.old))) }
        ensures fourth { Self.state (narrow fourth.new) ≡ between true (round (left * 2 ^ 64 + right) (Self.state (narrow fourth.old))) };
}
