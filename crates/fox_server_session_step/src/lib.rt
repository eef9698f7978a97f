// A call on a session of the server engine, in the session's parts. The sealed counter block in use is kept, so that bytes inside it are XORed and nothing is
// sealed for them; further bytes go by the stretch of a run.
#![tactic(auto)]

pub mod step;
