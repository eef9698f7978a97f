// The station's calls on sessions, by the server engine, over 519 words that the caller lends: the round keys, cipher, rounds, key length, first counter block,
// position, block in use, and whether the session seals or opens. Each returns the refusal number, 0 for success, from which the count follows: of an advance
// the output length, or 0; of a start or a move 0.
#![tactic(auto)]

ghost use Rattle.std.specs.Prelude.{◌≡◌, true, false, [], length, get_or};
ghost use Rattle.fox_refusals.specs.Answer.{answer_of};
ghost use Rattle.fox_refusals.specs.Handed.{answer};
ghost use Rattle.fox_session.specs.Machine.{Advance, Move};
ghost use Rattle.fox_server_session.specs.Session.{basis_of, session_at};
ghost use Rattle.fox_station_session.specs.Sessions.{session_in, direction_word, StartHanded, CallHanded};

use fox_refusals::refusal::{Refusal, number_in};
use fox_server_session::session::Session;
use fox_server_session_step::step::Basis;
use fox_session::{Here, Pair};

// To the words and from them by functions and no From: their order is the C interface's, which this crate alone knows, and the types are other crates'. The
// words are 519 in one array, since the C programs lend them so.
#[tactic(auto, unfolding(crate::specs::Sessions::session_in))]
fn basis_in(words: &[u64; 519]) -> Basis
    ensures { result ≡ basis_of (session_in words.now) }
{
    Basis {
        sealing: words[518] != 0,
        cipher: (words[510] % 0x1_0000_0000) as u32,
        rounds: (words[511] % 0x1_0000_0000) as u32,
        key_len: words[512] as usize,
        counter: Pair {
            left: words[513],
            right: words[514],
        },
    }
}

#[tactic(auto, unfolding(crate::specs::Sessions::session_in))]
fn here_in(words: &[u64; 519]) -> Here
    ensures { result ≡ (session_in words.now).here }
{
    Here {
        position: words[515],
        block: Pair {
            left: words[516],
            right: words[517],
        },
    }
}

// Writes where the session stands.
fn write_here(words: &mut [u64; 519], here: Here)
    ensures session { session_in words.new ≡ session_at (session_in words.old) here }
    ensures direction { get_or words.new 518 0 ≡ get_or words.old 518 0 }
{
    words[515] = here.position;
    words[516] = here.block.left;
    words[517] = here.block.right;
}

fn write_session(words: &mut [u64; 519], s: Session)
    ensures session { session_in words.new ≡ s }
    ensures direction { get_or words.new 518 0 ≡ direction_word s.sealing }
{
    words[..510].copy_from_slice(&s.key.keys);
    words[510] = u64::from(s.key.cipher);
    words[511] = u64::from(s.key.rounds);
    words[512] = s.key.key_len as u64;
    words[513] = s.counter.left;
    words[514] = s.counter.right;
    words[518] = u64::from(s.sealing);
    write_here(words, s.here);
}

// The session in the words goes on, unless the call is refused.
fn advance_in(words: &mut [u64; 519], input: &[u8], out: &mut [u8]) -> Result<usize, Refusal>
    ensures { CallHanded words.old (Advance input.now out.old) out.new (answer_of result) words.new }
{
    let mut here = here_in(words);
    let count = basis_in(words).advance(&words[..], &mut here, input, out)?;
    write_here(words, here);
    Ok(count)
}

fn move_in(words: &mut [u64; 519], to: u64) -> Result<usize, Refusal>
    ensures { CallHanded words.old (Move to) [] (answer_of result) words.new }
{
    let mut here = here_in(words);
    let count = basis_in(words).move_to(&words[..], &mut here, to)?;
    write_here(words, here);
    Ok(count)
}

// Begins a session in the words, or makes all of them zero where it is refused.
fn start_in(
    sealing: bool,
    cipher: u32,
    rounds: u32,
    key: &[u8],
    counter: &[u8],
    session: &mut [u64; 519],
) -> u32
    ensures { StartHanded sealing cipher rounds key.now counter.now (answer result 0) session.new }
{
    match Session::start_from_key(sealing, cipher, rounds, key, counter) {
        Ok(started) => {
            write_session(session, started);
            0
        }
        Err(refusal) => {
            *session = [0; 519];
            refusal.number()
        }
    }
}

#[unsafe(no_mangle)]
pub extern "C" fn fox_session_start_sealing(
    cipher: u32,
    rounds: u32,
    key: &[u8],
    counter: &[u8],
    session: &mut [u64; 519],
) -> u32
    ensures { StartHanded true cipher rounds key.now counter.now (answer result 0) session.new }
{
    start_in(true, cipher, rounds, key, counter, session)
}

#[unsafe(no_mangle)]
pub extern "C" fn fox_session_start_opening(
    cipher: u32,
    rounds: u32,
    key: &[u8],
    counter: &[u8],
    session: &mut [u64; 519],
) -> u32
    ensures { StartHanded false cipher rounds key.now counter.now (answer result 0) session.new }
{
    start_in(false, cipher, rounds, key, counter, session)
}

#[unsafe(no_mangle)]
pub extern "C" fn fox_session_advance(session: &mut [u64; 519], input: &[u8], out: &mut [u8]) -> u32
    ensures { CallHanded session.old (Advance input.now out.old) out.new
        (answer result (length out.old)) session.new }
{
    number_in(advance_in(session, input, out))
}

#[unsafe(no_mangle)]
pub extern "C" fn fox_session_move(session: &mut [u64; 519], position: u64) -> u32
    ensures { CallHanded session.old (Move position) [] (answer result 0) session.new }
{
    number_in(move_in(session, position))
}
