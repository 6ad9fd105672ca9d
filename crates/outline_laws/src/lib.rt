//! What a form is, in the words of ODK XForms: laws over the outline of a document, and no code.
#![tactic(auto)]

mod laws;

pub use laws::{
    a_form_says_what_its_outline_says, a_refusal_is_the_first_cause, the_first_cause_is_the_refusal,
};
