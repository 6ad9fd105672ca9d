//! Tests of kept forms and of the state of a device.
#![tactic(auto)]

#[cfg(test)]
mod device_state_tests;
#[cfg(test)]
mod kept_forms_tests;
