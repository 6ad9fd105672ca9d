//! The base of a server's addresses.
ghost use Rattle.std.specs.Prelude.{◌≡◌, IfOk};
ghost use Rattle.wire_laws.specs.Bases.{base_in};

use field_text::{NoMemory, Text};
use http_wire::{Address, read_base};
use std::alloc::Global;

/// The base of a server's addresses: an absolute form with the scheme `http`, and no user and no query (RFC 3986,
/// section 4.3). None where the text is none.
#[tactic(auto, using(crate::proofs::BaseLaws::told))]
pub fn server_base(alloc: Global, text: &Text) -> Result<Option<Address>, NoMemory>
    ensures { IfOk result (λ found. found ≡ base_in text.now) }
{
    read_base(alloc, text)
}
