//! The rules of the commands: what each entry makes of a device's state and answers, or why it is refused; and what a
//! hand may rely on that gives commands.
#![tactic(auto)]

mod acting;
mod answer;
mod auto_send;
mod caller;
mod drop_form;
mod drop_instance;
mod dues;
mod fill;
mod finalize;
mod finalize_all;
mod gate;
mod holders;
mod laws;
mod leave;
mod limits;
mod load;
mod not_built;
mod opened;
mod prepared;
mod queries;
mod refused;
mod release;
mod save_draft;
mod send_begun;
mod send_ended;
mod start;
mod step;
mod take_lock;
mod tick;
mod told;
mod trail;
mod update_mode;

pub use acting::Acted;
pub use answer::{Answer, Counts, EntryView, Finalized, FormLine, InstanceLine, NextSend, Query};
pub use caller::Caller;
pub use dues::{busy, due};
pub use finalize::Finished;
pub use finalize_all::Tried;
pub use gate::{Gate, Place};
pub use laws::entries_within_limits_fit_a_payload;
pub use opened::is_opening;
pub use prepared::Prepared;
pub use queries::ask;
pub use refused::{Refused, Which};
pub use save_draft::Named;
pub use start::Source;
pub use step::{apply, begin, decide};
pub use told::{SubmitFault, Told};
pub use trail::{Marked, Trail};
