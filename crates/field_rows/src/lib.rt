//! Rows that are kept: a list, and room for more rows that was taken before.
#![tactic(auto)]

mod rows;

pub use rows::Rows;
