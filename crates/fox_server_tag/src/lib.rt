// Tags by the server engine, one block of the message after the other. Tables are made once for a call, and so are round keys where it takes key bytes; both
// are passed by reference.
#![tactic(auto)]

mod chain;
pub mod tag;
