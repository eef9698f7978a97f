// What a call tells, as it is printed: its refusal's number, its count, and the position after it.
use fox_refusals::refusal::{Refusal, number_in};
use fox_server_session::session::Session;
use std::fmt;

#[derive(Clone, Copy)]
pub(crate) struct Told {
    answer: Result<usize, Refusal>,
    position: u64,
}

// A constructor: by `From` each call would build the pair of the answer and the session, which is no plainer.
impl Told {
    pub(crate) fn of(answer: Result<usize, Refusal>, session: &Session) -> Told {
        Told {
            answer,
            position: session.here.position,
        }
    }
}

impl fmt::Display for Told {
    fn fmt<W: fmt::Write>(&self, f: &mut fmt::Formatter<W>) -> fmt::Result {
        write!(
            f,
            " refusal={} count={} position={}",
            number_in(self.answer),
            self.answer.unwrap_or(0),
            self.position
        )
    }
}
