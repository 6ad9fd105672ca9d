//! Tests of values of expressions and the rules of questions.
//! Each public function is called once, and what no contract says is told by examples.
#![tactic(auto)]

#[cfg(test)]
mod expr_values_tests;
#[cfg(test)]
mod question_rules_tests;
