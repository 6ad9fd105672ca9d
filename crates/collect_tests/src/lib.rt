//! Tests of lines, their readers and the whole program in memory.
//! Each public function is called once, and what no contract says is told by examples.
#![tactic(auto)]

#[cfg(test)]
mod collect_text_tests;
#[cfg(test)]
mod collect_top_tests;
#[cfg(test)]
mod line_io_tests;
