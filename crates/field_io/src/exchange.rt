use crate::Stage;
use field_text::{Items, Text};

/// One exchange with a peer, as its dialer carried it.
#[derive(Debug, Drop)]
pub struct Exchange {
    /// The host that was dialed, and perhaps its port.
    pub authority: Text,
    /// The bytes that were sent.
    pub sent: Items<u8>,
    /// The bytes that were taken.
    pub taken: Items<u8>,
    /// The stage of the first call that failed.
    pub failed: Option<Stage>,
    /// Whether a take gave the end.
    pub ended: bool,
}
