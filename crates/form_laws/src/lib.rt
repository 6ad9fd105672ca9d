//! The form of any bytes, as a function: laws, and no code.
#![tactic(auto)]

mod laws;

pub use laws::{
    bytes_are_one_form_or_one_refusal, described_bytes_have_a_form,
    fields_have_an_order_or_a_first_cycle, memory_is_never_wanted, one_refusal,
    refused_bytes_have_their_refusal, the_form_is_described, the_refusal_is_a_cause,
};
