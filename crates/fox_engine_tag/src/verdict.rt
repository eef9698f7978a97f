// The test of a stored tag against the right one.
// A buffer has a fixed size, and its part in use is a slice: there is no heap.
ghost use Rattle.std.specs.Prelude.{◌≡◌, not, length};
ghost use Rattle.fox_rounds.specs.Skeleton.{size};
ghost use Rattle.fox_refusals.specs.Refusals.{same};
ghost use Rattle.fox_refusals.specs.Answer.{verdict_of};
ghost use Rattle.fox_block.specs.Block.{bytes};
ghost use Rattle.fox_tag.specs.Promise.{Compared};

use fox_engine_block::blocks::{Bytes, laid};
use fox_refusals::refusal::{Refusal, refuse};

// Whether two tags of one length differ. Every byte of both is read, wherever they differ.
fn differ(right: &[u8], stored: &[u8]) -> bool
    requires { length right.now ≡ length stored.now }
    ensures { result ≡ not (same right.now stored.now) }
{
    let mut bits = 0;
    for (r, s) in right.iter().zip(stored) {
        bits |= *r ^ *s;
    }
    bits != 0
}

// From the bytes of the right tag.
pub fn compared(right: &[u8], stored: &[u8]) -> Result<(), Refusal>
    requires { length right.now ≡ length stored.now }
    ensures { Compared right.now stored.now (verdict_of result) }
{
    refuse(differ(right, stored), Refusal::OtherTag)
}

// From the right tag as a block.
pub fn verdict<B: Bytes>(x: B, stored: &[u8]) -> Result<(), Refusal>
    requires { length stored.now ≡ size (B.state x) }
    ensures { Compared (bytes (B.state x)) stored.now (verdict_of result) }
{
    let mut room = [0; 16];
    compared(laid(x, &mut room), stored)
}
