//! The tokens that an expression is cut into (XPath 1.0 in a profile).
#![tactic(auto)]

mod cut;
mod front;
mod token;

pub use cut::token_at;
pub use front::past_spaces;
pub use token::Token;
