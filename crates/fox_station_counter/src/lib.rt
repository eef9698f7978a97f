// The station's call that makes the first counter block of a run from the run's number. It returns the refusal number, 0 for success, from which the count
// follows: the output length, or 0.
#![tactic(auto, using(fox_refusals::proofs::Laws::Reply::reply_handed))]

ghost use Rattle.fox_station.specs.Exports.{CounterHanded};

use crate::counter::make;
use fox_refusals::refusal::number_in;

pub mod counter;

#[unsafe(no_mangle)]
pub extern "C" fn fox_counter(cipher: u32, number: u32, counter: &mut [u8]) -> u32
    ensures { CounterHanded cipher number counter.old counter.new result }
{
    number_in(make(cipher, number, counter))
}
