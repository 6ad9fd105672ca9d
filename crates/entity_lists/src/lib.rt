//! Entity lists: their rows, the tables that forms read them as, and the rows of a server's list.
#![tactic(auto)]

mod csv_records;
mod entities;
mod entity_list;
mod lists;
mod server_rows;
mod versions;

pub use entities::{EntityRow, Prop, ServerRow};
pub use entity_list::{Entities, EntityList};
pub use lists::EntityLists;
pub use server_rows::{CsvRefused, ROW_LIMIT, read_server};
pub use versions::{VERSION_LIMIT, Version};
