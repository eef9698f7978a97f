// Field arithmetic, substitution and diffusion of FOX, specification 1.2, computed without tables, and with no branch and no address that depends on a byte:
// the lowest library, which is taken and reviewed by itself. The ciphers above it rely on the promises stated here alone.
#![tactic(auto)]

mod boxes;
pub mod diffusion;
pub mod field;
mod nibbles;
pub mod substitution;
pub mod words;
