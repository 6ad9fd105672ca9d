//! What a document says of a form (ODK XForms in a profile), before any of it is tested.
#![tactic(auto)]

mod controls;
mod model;
mod outline;
mod primary;
mod reading;

pub use outline::{
    Bind, Control, ControlPart, EntityPart, ItemsetPart, ModelPart, Outline, PrimaryField,
    PrimaryPart, SetValue, Table, TableContent,
};
pub use reading::{OutlineFault, read_outline};
