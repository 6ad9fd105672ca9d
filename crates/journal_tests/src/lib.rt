//! Tests of entries, their bytes, disks, the journal and the locks.
//! Each public function is called once, and what no contract says is told by examples.
#![tactic(auto)]

#[cfg(test)]
mod change_locks_tests;
#[cfg(test)]
mod device_journal_tests;
#[cfg(test)]
mod disk_model_tests;
#[cfg(test)]
mod entry_codec_tests;
#[cfg(test)]
mod entry_form_tests;
