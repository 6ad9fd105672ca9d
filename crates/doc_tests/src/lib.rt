//! Tests of the documents of instances. Each public function is called once.
#![tactic(auto)]

#[cfg(test)]
mod instance_doc_tests;
