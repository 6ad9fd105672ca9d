//! Tests of form lists, update plans and the stores.
//! Each public function is called once, and what no contract says is told by examples.
#![tactic(auto)]

#[cfg(test)]
mod form_list_tests;
#[cfg(test)]
mod form_store_tests;
#[cfg(test)]
mod instance_store_tests;
#[cfg(test)]
mod savepoints_tests;
#[cfg(test)]
mod update_modes_tests;
