// From a key to the diversified key of a round (001 §2.3.5 to §2.3.8): padding, mixing, diversification.
#![tactic(auto)]

pub mod diversification;
pub mod key;
pub mod mixing;
