//! What holds of all texts and all bytes, as contracts of functions that do nothing.
ghost use Rattle.std.specs.Prelude.{◌≡◌, ℕ, List, Option};
ghost use Rattle.http_reply.specs.Replies.{Reply, IsReply};
ghost use Rattle.http_wire.specs.Addresses.{HasAddress, base_of};
ghost use Rattle.http_wire.specs.declared.address.Address.{Address};
ghost use Rattle.submission_wire.specs.Acceptance.{is_accepted};
ghost use Rattle.wire_laws.specs.Accepted.{accepts};
ghost use Rattle.wire_laws.specs.Bases.{base_in};

/// A text has one base of a server's addresses or none, whichever text it is.
pub fn texts_have_one_base()
    ensures has { (text : List ℕ) → HasAddress base_of text (base_in text) }
    ensures one { (text : List ℕ) (found : Option Address) → HasAddress base_of text found → found ≡ base_in text }
{}

/// Bytes are one reply at most, and whether it accepts a submission is told by the bytes.
pub fn replies_are_one()
    ensures one { (bytes : List ℕ) (a b : Reply) → IsReply bytes a → IsReply bytes b → a ≡ b }
    ensures accepts { (bytes : List ℕ) (reply : Reply) → IsReply bytes reply → is_accepted reply ≡ accepts bytes }
{}
