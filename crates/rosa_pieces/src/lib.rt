//! The pieces that a document is cut into: tags, comments, instructions and characters (XML 1.0).
#![tactic(auto)]

mod cut;
mod front;
mod names;
mod piece;
mod skipped;
mod tags;
mod unread;
mod values;

pub use cut::{one_piece, piece_at};
pub use piece::{Attribute, CharData, Name, Piece, Tag};
pub use unread::Unread;
