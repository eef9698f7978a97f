// What every engine does alike to a message for its tag (CMAC), for every block size: its parts, and the last block with its subkey.
#![tactic(auto)]

pub mod last;
pub mod parts;
