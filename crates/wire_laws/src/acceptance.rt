//! Which bytes accept a submission.
ghost use Rattle.std.specs.Prelude.{◌≡◌};
ghost use Rattle.wire_laws.specs.Accepted as spec;

use submission_wire::accepted;

/// Whether these bytes, as a reply, say that the server has the submission: their final head has the status 201 or 202.
#[tactic(auto, using(crate::proofs::Statuses::told))]
pub fn accepts(bytes: &[u8]) -> bool
    ensures { result ≡ spec.accepts bytes.now }
{
    accepted(bytes)
}
