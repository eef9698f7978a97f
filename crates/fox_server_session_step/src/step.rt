// A call on a session in its parts: what stays the same, the round keys, which are lent, and where the session stands. Round keys are looked at only where a
// block is sealed.
ghost use Rattle.std.specs.Prelude.{◌≡◌, [], ◌+◌, ◌%◌, ◌≤◌, length, take};
ghost use Rattle.fox_refusals.specs.Answer.{number_in, answer_of};
ghost use Rattle.fox_refusals.specs.Refusals.{refusal_of, block_size, for_run, Keyed};
ghost use Rattle.fox_run.specs.Run.{run_with};
ghost use Rattle.fox_session.specs.InUse.{held_block, BlockAt};
ghost use Rattle.fox_session.specs.Machine.{Advance, Move};
ghost use Rattle.fox_session.specs.Promise.{Follows};
ghost use Rattle.fox_server_key.specs.Prepared.{held_keys};
ghost use Rattle.fox_server_session_step.specs.Step.{machine_at, TrueAt, Ready, Passes, Renews};

use fox_refusals::refusal::Refusal;
use fox_refusals::refusals::block_size;
use fox_refusals::stretch::for_run;
use fox_server_session_block::block::xor_block;
use fox_server_session_block::run::Run;
use fox_session::{Here, Pair};

// What stays the same in a session, but for the round keys: whether it seals or opens among it.
#[derive(Clone, Copy)]
pub struct Basis {
    pub sealing: bool,
    pub cipher: u32,
    pub rounds: u32,
    pub key_len: usize,
    pub counter: Pair,
}

// The bytes of a run from byte n on, which begins a block: whole blocks, and the rest by the block that the next position is in, which is returned.
fn further(run: &Run, n: usize, input: &[u8], out: &mut [u8]) -> Pair
    requires within { n + length input.now ≤ 1073741824 }
    requires out_len { length out.old ≡ length input.now }
    requires first { n % block_size run.now.cipher ≡ 0 }
    ensures bytes { out.new
        ≡ run_with run.now.cipher (held_keys run.now.cipher run.now.keys.now run.now.rounds)
        (held_block run.now.cipher run.now.counter) n input.now }
    ensures block { BlockAt run.now.cipher (held_keys run.now.cipher run.now.keys.now run.now.rounds)
        (held_block run.now.cipher run.now.counter) (n + length input.now) result }
{
    let whole = input.len() - input.len() % block_size(run.cipher);
    run.whole_blocks(n, &input[..whole], &mut out[..whole]);
    let block = run.block_at(n + input.len());
    xor_block(run.cipher, block, 0, &input[whole..], &mut out[whole..]);
    block
}

impl Basis {
    // The refusals of a stretch at a position, with a counter block of the block's size.
    fn refusal(&self, offset: u64, input_len: usize, out_len: usize) -> Result<(), Refusal>
        ensures { number_in result
            ≡ refusal_of (for_run self.now.sealing self.now.cipher self.now.rounds self.now.key_len
            (block_size self.now.cipher) offset input_len out_len) }
    {
        for_run(
            self.sealing,
            self.cipher,
            self.rounds,
            self.key_len,
            block_size(self.cipher),
            offset,
            input_len,
            out_len,
        )
    }

    // The run of a session whose key is not refused.
    fn run<'a>(&self, keys: &'a [u64]) -> Run<'a>
        requires keyed { Keyed self.now.cipher self.now.rounds self.now.key_len }
        requires words { 510 ≤ length keys.now }
        ensures cipher { result.cipher ≡ self.now.cipher }
        ensures keys { result.keys.now ≡ take 510 keys.now }
        ensures rounds { result.rounds ≡ self.now.rounds }
        ensures counter { result.counter ≡ self.now.counter }
    {
        Run {
            cipher: self.cipher,
            keys: keys.first_chunk().unwrap(),
            rounds: self.rounds as usize,
            counter: self.counter,
        }
    }

    // The next bytes, where no refusal applies: those of the block in use, and those further on. Returns the block that the next position is in.
    fn pass(&self, keys: &[u64], here: Here, input: &[u8], out: &mut [u8]) -> Pair
        requires ready { Ready self.now keys.now (here.position + length input.now) }
        requires out_len { length out.old ≡ length input.now }
        ensures { Passes self.now (take 510 keys.now) here input.now out.new result }
    {
        let size = block_size(self.cipher);
        let first = here.position as usize;
        let skip = first % size;
        let done = xor_block(self.cipher, here.block, skip, input, out);
        if skip + input.len() < size {
            return here.block;
        }
        further(
            &self.run(keys),
            first + done,
            &input[done..],
            &mut out[done..],
        )
    }

    // The block that a position is in; the one in use stays where it is the same.
    fn renew(&self, keys: &[u64], here: Here, to: u64) -> Pair
        requires { Ready self.now keys.now to }
        ensures { Renews self.now (take 510 keys.now) here to result }
    {
        let size = block_size(self.cipher) as u64;
        if to / size == here.position / size {
            return here.block;
        }
        self.run(keys).block_at(to as usize)
    }

    // The next bytes, sealed or opened at the position, which moves on by their number. Returns their count.
    pub fn advance(
        &self,
        keys: &[u64],
        here: &mut Here,
        input: &[u8],
        out: &mut [u8],
    ) -> Result<usize, Refusal>
        requires { 510 ≤ length keys.now }
        ensures { Follows (machine_at self.now (take 510 keys.now)) (TrueAt self.now (take 510 keys.now)) here.old
            (Advance input.now out.old) out.new (answer_of result) here.new }
    {
        self.refusal(here.position, input.len(), out.len())?;
        here.block = self.pass(keys, *here, input, out);
        here.position += input.len() as u64;
        Ok(out.len())
    }

    // To a position, either way. Returns a count of 0.
    pub fn move_to(&self, keys: &[u64], here: &mut Here, to: u64) -> Result<usize, Refusal>
        requires { 510 ≤ length keys.now }
        ensures { Follows (machine_at self.now (take 510 keys.now)) (TrueAt self.now (take 510 keys.now)) here.old (Move to) []
            (answer_of result) here.new }
    {
        self.refusal(to, 0, 0)?;
        here.block = self.renew(keys, *here, to);
        here.position = to;
        Ok(0)
    }
}
