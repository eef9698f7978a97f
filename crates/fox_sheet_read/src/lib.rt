// The bench sheet read: its settings, and its task.
#![tactic(auto)]

pub mod sheet;
