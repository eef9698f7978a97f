// A session as one value: the prepared key, the first counter block, where it stands, and whether it was started for sealing or for opening. A call changes the
// session where the caller has it.
// Cipher, rounds and key come one by one, as C programs hand them over and the promises name them.
ghost use Rattle.std.specs.Prelude.{◌≡◌, [], length};
ghost use Rattle.fox_key_schedule.specs.Schedule.{round_keys};
ghost use Rattle.fox_refusals.specs.Answer.{answer_of};
ghost use Rattle.fox_session.specs.Machine.{Advance, Move};
ghost use Rattle.fox_server_key.specs.Prepared.{prepared_key, round_keys_in};
ghost use Rattle.fox_server_session.specs.Session.{basis_of, no_session, started_of, session_of, Begins, Changes};

use fox_refusals::refusal::Refusal;
use fox_refusals::stretch::for_run;
use fox_server_key::prepared::{Prepared, no_key, prepare};
use fox_server_session_block::block::read_block;
use fox_server_session_block::run::Run;
use fox_server_session_step::step::Basis;
use fox_session::{Here, Pair};

#[derive(Clone, Copy)]
pub struct Session {
    pub key: Prepared,
    pub counter: Pair,
    pub here: Here,
    pub sealing: bool,
}

impl Session {
    // The session of a refused start: all zeros, so that every call on it is refused.
    #[tactic(auto, unfolding(crate::specs::Session::no_session, fox_server_key::specs::Prepared::no_key))]
    pub fn none() -> Session
        ensures { result ≡ no_session }
    {
        let none = no_key();
        let nothing = Pair { left: 0, right: 0 };
        Session {
            key: none,
            counter: nothing,
            here: Here {
                position: 0,
                block: nothing,
            },
            sealing: false,
        }
    }

    // From a prepared key: the session is that of the round keys it holds, also where the caller filled it.
    pub fn start(sealing: bool, p: Prepared, counter: &[u8]) -> Result<Session, Refusal>
        ensures { Begins sealing p p.cipher p.rounds p.key_len (round_keys_in p) counter.now (started_of result) (session_of result) }
    {
        for_run(
            sealing,
            p.cipher,
            p.rounds,
            p.key_len,
            counter.len(),
            0,
            0,
            0,
        )?;
        let first = read_block(p.cipher, counter);
        let run = Run {
            cipher: p.cipher,
            keys: &p.keys,
            rounds: p.rounds as usize,
            counter: first,
        };
        let block = run.block_at(0);
        Ok(Session {
            key: p,
            counter: first,
            here: Here { position: 0, block },
            sealing,
        })
    }

    // From key bytes; the key is prepared within the call, once no refusal applies.
    pub fn start_from_key(
        sealing: bool,
        cipher: u32,
        rounds: u32,
        key: &[u8],
        counter: &[u8],
    ) -> Result<Session, Refusal>
        ensures { Begins sealing (prepared_key cipher rounds key.now) cipher rounds (length key.now)
            (round_keys cipher rounds key.now) counter.now (started_of result) (session_of result) }
    {
        for_run(sealing, cipher, rounds, key.len(), counter.len(), 0, 0, 0)?;
        Session::start(sealing, prepare(cipher, rounds, key)?, counter)
    }

    fn basis(&self) -> Basis
        ensures { result ≡ basis_of self.now }
    {
        Basis {
            sealing: self.sealing,
            cipher: self.key.cipher,
            rounds: self.key.rounds,
            key_len: self.key.key_len,
            counter: self.counter,
        }
    }

    // The next bytes, sealed or opened at the position, which moves on by their number. Returns their count.
    pub fn advance(&mut self, input: &[u8], out: &mut [u8]) -> Result<usize, Refusal>
        ensures { Changes self.old (Advance input.now out.old) out.new (answer_of result) self.new }
    {
        self.basis()
            .advance(&self.key.keys, &mut self.here, input, out)
    }

    // To a position, either way. Returns a count of 0.
    pub fn move_to(&mut self, to: u64) -> Result<usize, Refusal>
        ensures { Changes self.old (Move to) [] (answer_of result) self.new }
    {
        self.basis().move_to(&self.key.keys, &mut self.here, to)
    }
}
