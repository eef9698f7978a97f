// No code: texts of lines, with decimals and pairs of hex digits: which are well-formed, what they say and how they are written (specs/), and the laws on
// this (proofs/). The code is in fox_text_lines, fox_text_read and fox_text_write.
#![tactic(auto)]
