//! Forms: ODK XForms in a profile, read from the bytes of a document.
#![tactic(auto)]

mod binds;
mod controls;
mod draft;
mod drafts;
mod expressions;
mod fields;
mod form;
mod laws;
mod paths;
mod primary;
mod refusal;
mod scope;
mod slots;
mod tables;

pub use form::read_form;
pub use laws::{form_or_refusal, one_form};
pub use refusal::FormRefused;
use scope::Scope;
