// What the port answers to recorded cases that are no whole run and no text: cut choices, sequences of interval managers, and inputs of functions of
// floats. They are read and answered as crates/replay/RECORDED.md says.
#![tactic(auto)]

mod cuts;
mod floats;
mod intervals;
mod words;

pub use cuts::answer_cut;
pub use floats::answer_floats;
pub use intervals::answer_sequence;
pub use words::{put_double, put_pair, put_word};
