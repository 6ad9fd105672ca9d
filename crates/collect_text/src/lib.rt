//! How the bytes of a script become lines and words, and how a text is printed in a line.
#![tactic(auto)]

mod answer_rows;
mod arguments;
mod line;
mod lines;
mod log;
mod pieces;
mod print;
mod printed;
mod refusals;
mod rounds;
mod rows;
mod settings;
mod word;

pub use line::{Line, Shape, read_line};
pub use lines::{next_line, without_return};
pub use log::print_entry;
pub use print::{print_answer, print_word};
pub use printed::{print_text, printed_words_are_read};
pub use refusals::print_refused;
pub use rounds::print_round;
pub use rows::Asked;
pub use word::{is_skipped, words};
