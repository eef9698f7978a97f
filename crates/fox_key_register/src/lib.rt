// The register of 24 bits of the key schedules (001 §2.3.9), stepped forward and back.
#![tactic(auto)]

pub mod register;
