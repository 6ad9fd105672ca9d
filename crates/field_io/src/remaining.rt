ghost use Rattle.std.specs.Prelude.{◌≡◌, ◌<◌, ◌≤◌, ◌++◌, [], length, take, min};

use std::marker::Model;

/// Bytes of which the front was taken, seen as those that are left.
#[derive(Debug, Drop)]
pub(crate) struct Remaining {
    bytes: Vec<u8>,
    taken: usize,
}

impl Model for Remaining {
    ghost use Rattle.std.specs.Prelude.{List, ℕ, ◌≤◌, length, drop};

    ghost Value = { List ℕ };

    ghost view = { λ r. drop r.taken r.bytes.items };

    ghost invariant = { λ r. r.taken ≤ length r.bytes.items };
}

impl Remaining {
    pub(crate) fn new(bytes: Vec<u8>) -> Remaining
        ensures { result ≡ bytes.items }
    {
        Remaining { bytes, taken: 0 }
    }

    /// Moves the front into the front of the buffer, as far as there is room, and answers how many bytes.
    pub(crate) fn take(&mut self, buf: &mut [u8]) -> usize
        requires { 0 < length buf.old }
        ensures within { result ≤ length buf.new }
        ensures moved { self.old ≡ take result buf.new ++ self.new }
        ensures ended { result ≡ 0 → self.new ≡ [] }
    {
        let count = copy_front(&self.bytes[self.taken..], buf);
        self.taken += count;
        count
    }
}

/// Moves the front of the bytes into the front of the buffer, as far as there is room.
pub(crate) fn copy_front(bytes: &[u8], buf: &mut [u8]) -> usize
    ensures count { result ≡ min (length bytes.now) (length buf.new) }
    ensures copied { take result buf.new ≡ take result bytes.now }
{
    let count = bytes.len().min(buf.len());
    buf[..count].copy_from_slice(&bytes[..count]);
    count
}
