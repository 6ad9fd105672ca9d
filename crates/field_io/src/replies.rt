ghost use Rattle.std.specs.Prelude.{◌≤◌, length};

use crate::remaining::copy_front;

/// Canned replies, one for each dial.
#[derive(Debug, Drop)]
pub(crate) struct Replies {
    replies: Vec<Vec<u8>>,
    dials: usize,
    taken: usize,
}

impl Replies {
    pub(crate) fn new(replies: Vec<Vec<u8>>) -> Replies {
        Replies {
            replies,
            dials: 0,
            taken: 0,
        }
    }

    /// Goes on to the next reply, and says whether there is one.
    pub(crate) fn dial(&mut self) -> bool {
        self.dials = self.dials.saturating_add(1);
        self.taken = 0;
        self.dials <= self.replies.len()
    }

    /// Moves the front of what is left of the reply into the front of the buffer, and answers how many bytes.
    pub(crate) fn take(&mut self, buf: &mut [u8]) -> usize
        ensures { result ≤ length buf.new }
    {
        let count = copy_front(self.left(), buf);
        self.taken = self.taken.saturating_add(count);
        count
    }

    fn left(&self) -> &[u8] {
        let Some(last) = self.dials.checked_sub(1) else {
            return &[];
        };
        match self.replies.get(last) {
            Some(reply) => reply.get(self.taken..).unwrap_or(&[]),
            None => &[],
        }
    }
}
