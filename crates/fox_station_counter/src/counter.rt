// The first counter block of a run, from cipher and the run's number: every input is answered.
ghost use Rattle.std.specs.Prelude.{◌≡◌, length};
ghost use Rattle.fox_refusals.specs.Refusals.{block_size};
ghost use Rattle.fox_refusals.specs.Answer.{answer_of};
ghost use Rattle.fox_run.specs.Counter.{first_counter};
ghost use Rattle.fox_run.specs.Promise.{MakesCounter};

use fox_bytes::bytes::store_all;
use fox_refusals::counters::for_counter;
use fox_refusals::refusal::Refusal;

// The number's word stands before the last, and zeros in all others. The cipher is the number that C programs give.
fn lay(cipher: u32, number: u32, out: &mut [u8])
    requires { length out.old ≡ block_size cipher }
    ensures { out.new ≡ first_counter cipher number }
{
    if cipher == 64 {
        store_all(out, [number, 0]);
    } else {
        store_all(out, [0, 0, number, 0]);
    }
}

pub fn make(cipher: u32, number: u32, out: &mut [u8]) -> Result<usize, Refusal>
    ensures { MakesCounter cipher number out.old out.new (answer_of result) }
{
    for_counter(cipher, out.len())?;
    lay(cipher, number, out);
    Ok(out.len())
}
