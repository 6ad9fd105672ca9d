//! What a reply says of a submission.
ghost use Rattle.std.specs.Prelude.{◌≡◌};
ghost use Rattle.http_reply.specs.Replies.{Reply, IsReply};
ghost use Rattle.submission_wire.specs.Acceptance.{is_accepted};

use http_reply::read_reply;

/// Whether these bytes, as a reply, say that the server has the submission: their final head has the status 201 or 202.
/// Its body isn't asked, nor where it ends.
pub fn accepted(bytes: &[u8]) -> bool
    ensures { (reply : Reply) × IsReply bytes.now reply × (result ≡ is_accepted reply) }
{
    let status = read_reply(bytes).status;
    status == 201 || status == 202
}
