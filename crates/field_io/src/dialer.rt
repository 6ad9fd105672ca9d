ghost use Rattle.std.specs.Prelude.{◌≡◌, ◌<◌, ◌≤◌, ◌++◌, ◌∷◌, [], ℕ, Bool, true, false, List, Option, length, is_ok};
ghost use Rattle.std.specs.Prelude.{IfOk};
ghost use Rattle.field_io.specs.Causes.{HasCause, CountsWhere};
ghost use Rattle.field_io.specs.Exchanges.{Makes, change_last, dialed, sent_on, taken_on};
ghost use Rattle.field_io.specs.declared.exchange.Exchange.{Exchange};

use crate::Failed;
use field_text::Text;

/// The call of an exchange at which it failed.
#[derive(Clone, Copy, Debug, PartialEq, Eq)]
pub enum Stage {
    Dial,
    Send,
    Take,
}

/// Connections to a peer, one after another. A dial that succeeds opens one; bytes are sent, and then bytes are taken.
pub trait Dialer {
    /// What kind of data the peer is.
    ghost Peer: { Type 0 };

    /// The peer, which no call changes.
    ghost peer: { Self → Peer };

    /// The exchanges so far, where the dialer tells them. Each dial, a failed one too, begins one.
    ghost carried: { Self → Option (List Exchange) };

    /// How often a call has failed.
    ghost faults: { Self → ℕ };

    /// How often a take has come to the end.
    ghost ends: { Self → ℕ };

    /// Whether a dial has succeeded and nothing has hung up since.
    ghost is_open: { Self → Bool };

    /// Whether bytes were taken since that dial.
    ghost has_taken: { Self → Bool };

    /// Begins an exchange with this authority, a host and perhaps a port.
    fn dial(&mut self, authority: &Text) -> Result<(), Failed>
        ensures open { is_open self.new ≡ is_ok result }
        ensures fresh { has_taken self.new ≡ false }
        ensures carried { Makes (carried self.old) (carried self.new) (λ xs. xs ++ dialed authority.now result ∷ []) }
        ensures peer { peer self.new ≡ peer self.old }
        ensures ends { ends self.new ≡ ends self.old }
        ensures cause { HasCause (faults self.old) (faults self.new) result };

    /// Sends the front of the bytes, and answers how many, at least one.
    fn send(&mut self, bytes: &[u8]) -> Result<usize, Failed>
        requires some { 0 < length bytes.now }
        requires open { is_open self.old ≡ true }
        requires fresh { has_taken self.old ≡ false }
        ensures within { IfOk result (λ n. (1 ≤ n) × (n ≤ length bytes.now)) }
        ensures state { (is_open self.new ≡ true) × (has_taken self.new ≡ false) }
        ensures carried { Makes (carried self.old) (carried self.new) (change_last (sent_on bytes.now result)) }
        ensures peer { peer self.new ≡ peer self.old }
        ensures ends { ends self.new ≡ ends self.old }
        ensures cause { HasCause (faults self.old) (faults self.new) result };

    /// Moves the next bytes of the reply into the front of the buffer, and answers how many; 0 is the end.
    fn take(&mut self, buf: &mut [u8]) -> Result<usize, Failed>
        requires room { 0 < length buf.old }
        requires open { is_open self.old ≡ true }
        ensures within { IfOk result (λ n. n ≤ length buf.new) }
        ensures state { (is_open self.new ≡ true) × (has_taken self.new ≡ true) }
        ensures carried { Makes (carried self.old) (carried self.new) (change_last (taken_on buf.new result)) }
        ensures peer { peer self.new ≡ peer self.old }
        ensures ends { CountsWhere (ends self.old) (ends self.new) (result ≡ Ok 0) }
        ensures cause { HasCause (faults self.old) (faults self.new) result };

    /// Ends the exchange, where one is open.
    fn hang_up(&mut self)
        ensures closed { is_open self.new ≡ false }
        ensures carried { carried self.new ≡ carried self.old }
        ensures peer { peer self.new ≡ peer self.old }
        ensures ends { ends self.new ≡ ends self.old }
        ensures faults { faults self.new ≡ faults self.old };
}
