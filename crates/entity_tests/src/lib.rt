//! Tests of entity lists and what merges and actions make of them.
//! Each public function is called once, and what no contract says is told by examples.
#![tactic(auto)]

#[cfg(test)]
mod entity_lists_tests;
#[cfg(test)]
mod entity_merge_tests;
