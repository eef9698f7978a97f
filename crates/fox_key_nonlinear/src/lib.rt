// The non-linear parts of the key schedules (001 §2.3.10 to §2.3.15): from a diversified key to a round key.
// They stay three functions: 001 mixes and hashes in another way in each, and what two of them share is in `layers`.
#![tactic(auto)]

mod layers;
pub mod nl128;
pub mod nl64;
pub mod nl64h;
