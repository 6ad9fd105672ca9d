ghost use Rattle.std.specs.Prelude.{◌≡◌};

/// Who gives commands.
#[derive(Clone, Copy, Debug, PartialEq, Eq)]
pub enum Hand {
    Script,
    Sender,
    Updater,
    Lister,
}

impl Hand {
    ghost use Rattle.entry_form.specs.Hand.{hand_number};

    /// The number of a hand, by which entries name it.
    pub fn number(self) -> u64
        ensures { result ≡ hand_number self }
    {
        match self {
            Hand::Script => 0,
            Hand::Sender => 1,
            Hand::Updater => 2,
            Hand::Lister => 3,
        }
    }
}

/// What one hand holds at a time while it changes it.
#[derive(Clone, Copy, Debug, PartialEq, Eq)]
pub enum Lock {
    Forms,
    Instances,
}

/// A round of work with the server.
#[derive(Clone, Copy, Debug, PartialEq, Eq)]
pub enum Round {
    /// Fetches forms.
    Forms,
    /// Fetches entity lists.
    Lists,
    /// Sends finalized instances.
    Send,
}

impl Round {
    ghost use Rattle.entry_form.specs.Hand.{round_lock};

    /// The lock that a round takes.
    pub fn lock(self) -> Lock
        ensures { result ≡ round_lock self }
    {
        match self {
            Round::Forms | Round::Lists => Lock::Forms,
            Round::Send => Lock::Instances,
        }
    }
}
