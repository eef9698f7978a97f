// A session of the server engine as one value: it is started, and a call changes it where the caller has it.
#![tactic(auto)]

pub mod session;
