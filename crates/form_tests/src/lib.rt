//! Tests of definitions, orders, tokens, expressions, outlines, forms.
//! Each public function is called once, and what no contract says is told by examples.
#![tactic(auto)]

#[cfg(test)]
mod form_def_tests;
#[cfg(test)]
mod form_expr_tests;
#[cfg(test)]
mod form_order_tests;
#[cfg(test)]
mod form_outline_tests;
#[cfg(test)]
mod form_read_tests;
#[cfg(test)]
mod form_tokens_tests;
