//! Forms and the expressions in them: plain data, and what every form keeps.
#![tactic(auto)]

mod expr;
mod field;
mod fields;
mod form;
mod order;
mod parts;
mod paths;
mod reads;

pub use expr::{Expr, Func, Op};
pub use field::{Cell, Choices, EntityDef, Field, InnerTable, Kind, OuterTable};
pub use fields::are_within;
pub use form::FormDef;
pub use order::{dependencies, is_marked};
pub use parts::{FormFault, FormParts};
pub use paths::parent_path;
