// Taking up a run file, from a prepared key and from key bytes: the file's text and its tag are tested, and reading begins at its first scan.
#![tactic(auto)]

pub mod take;
