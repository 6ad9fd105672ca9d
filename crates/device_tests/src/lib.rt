//! Tests of the rules of commands and the device.
//! Each public function is called once, and what no contract says is told by examples.
#![tactic(auto)]

#[cfg(test)]
mod device_core_tests;
#[cfg(test)]
mod device_rules_tests;
