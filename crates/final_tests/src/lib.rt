//! Tests of finalizing. Each public function is called once, and documents are those that the formats tell.
#![tactic(auto)]

#[cfg(test)]
mod finalizer_tests;
