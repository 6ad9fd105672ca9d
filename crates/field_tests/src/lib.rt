//! Tests of texts, rows, sources and sinks, dialers, clocks and ids.
//! Each public function is called once, and what no contract says is told by examples.
#![tactic(auto)]

#[cfg(test)]
mod field_ids_tests;
#[cfg(test)]
mod field_io_tests;
#[cfg(test)]
mod field_rows_tests;
#[cfg(test)]
mod field_text_tests;
