// The key schedules (001 §2.3.1 to §2.3.4): the schedule of a key, the round key at a register value, and the register's value for each round.
#![tactic(auto)]

pub mod schedule;
