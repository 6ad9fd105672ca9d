//! Forms that a device keeps: a document beside the form that was read from it, so that nothing is read twice.
#![tactic(auto)]

mod form;
mod lines;
mod sheets;

pub use form::KeptForm;
pub use lines::FieldLine;
pub use sheets::fits_form;
