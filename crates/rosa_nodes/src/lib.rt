//! What stands in an element of a document: its child elements, its own text, and its attributes.
#![tactic(auto)]

mod nodes;
mod trimming;

pub use nodes::{
    attribute, attribute_of, attribute_or_empty, child_named, element_in, has_elements, words_of,
};
pub use trimming::text_of_child;
