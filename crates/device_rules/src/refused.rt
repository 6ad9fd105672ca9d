ghost use Rattle.std.specs.Prelude.{◌≡◌, is_none};
ghost use Rattle.device_rules.specs.declared.refused.Refused.TheVariants.{NoMemory};
ghost use Rattle.device_rules.specs.Refused.{action_refused, answer_refused, form_refused, not_final, rule_of};

use change_locks::Held;
use entity_lists::{ROW_LIMIT, VERSION_LIMIT};
use entity_merge::ActionRefused;
use entry_form::Hand;
use field_text::Text;
use finalizer::NotFinal;
use form_read::FormRefused;
use instance_store::Status;
use question_rules::AnswerRefused;

/// The name of a limit.
#[derive(Clone, Copy, Debug, PartialEq, Eq)]
pub enum Which {
    /// The number of forms that are kept.
    Forms,
    /// The number of instances that are kept.
    Instances,
    /// The number of entity lists.
    Lists,
    /// The number of entities in a list.
    Rows,
    /// The version of an entity.
    Versions,
    /// The number of entries.
    Counters,
}

/// Why a command or a query was refused; nothing was changed. Of several reasons the one of the least number is given.
#[derive(Debug, Drop)]
pub enum Refused {
    /// A value that the command carries is outside its limit.
    BadValue,
    /// The lock is held by this hand, since the entry at this position.
    Busy { hand: Hand, since: u64 },
    /// The hand doesn't hold the lock; who does.
    NotHolder { holder: Option<Held> },
    /// The instance waits to be sent, and isn't due for this hand.
    NothingDue,
    /// No form of the id is kept that this command may take.
    NoForm,
    /// Forms of the id are kept, and none of the version that this command may take.
    NoVersion,
    NoInstance,
    /// No questionnaire is being filled in.
    NoEntry,
    /// A questionnaire is being filled in.
    EntryThere,
    SavepointThere,
    NoSavepoint,
    WrongStatus { status: Status },
    /// The instance with this number is an edit of it.
    HasEdit { number: u64 },
    /// The open questionnaire stands on the instance with this number.
    InUse { number: u64 },
    Answer(AnswerRefused),
    NotFinal(NotFinal),
    FormRefused(FormRefused),
    /// A form of the same id and version is kept with other bytes; these are the two hashes.
    OtherBytes { kept: Text, new: Text },
    Limit { which: Which, number: u64 },
    /// The hand has no send of this instance in flight.
    NotInFlight,
    /// A send of the instance with this number is in flight.
    InFlight { number: u64 },
    NoMemory,
    /// A command that this device doesn't know yet.
    NotBuilt,
}

impl Refused {
    ghost use Rattle.device_rules.specs.Refused.{refused_number};

    /// The number by which a refusal is printed, and which says its place among others that apply.
    pub fn number(&self) -> u64
        ensures { result ≡ refused_number self.now }
    {
        match self {
            Refused::BadValue => 1,
            Refused::Busy { .. } => 2,
            Refused::NotHolder { .. } => 3,
            Refused::NothingDue => 4,
            Refused::NoForm => 5,
            Refused::NoVersion => 6,
            Refused::NoInstance => 7,
            Refused::NoEntry => 8,
            Refused::EntryThere => 9,
            Refused::SavepointThere => 10,
            Refused::NoSavepoint => 11,
            Refused::WrongStatus { .. } => 12,
            Refused::HasEdit { .. } => 13,
            Refused::InUse { .. } => 14,
            Refused::Answer(_) => 15,
            Refused::NotFinal(_) => 16,
            Refused::FormRefused(_) => 17,
            Refused::OtherBytes { .. } => 18,
            Refused::Limit { .. } => 19,
            Refused::NotInFlight => 21,
            Refused::InFlight { .. } => 22,
            Refused::NoMemory => 23,
            Refused::NotBuilt => 24,
        }
    }
}

impl Refused {
    pub(crate) fn is_no_memory(&self) -> bool
        ensures { result ≡ is_none (rule_of self.now) }
    {
        matches!(self, Refused::NoMemory)
    }
}

impl From<field_text::NoMemory> for Refused {
    ghost from_gives = { λ _ e. e ≡ NoMemory };

    fn from(_: field_text::NoMemory) -> Refused {
        Refused::NoMemory
    }
}

impl From<AnswerRefused> for Refused {
    ghost from_gives = { λ why e. e ≡ answer_refused why };

    fn from(why: AnswerRefused) -> Refused {
        match why {
            AnswerRefused::NoMemory => Refused::NoMemory,
            why => Refused::Answer(why),
        }
    }
}

impl From<FormRefused> for Refused {
    ghost from_gives = { λ why e. e ≡ form_refused why };

    fn from(why: FormRefused) -> Refused {
        match why {
            FormRefused::NoMemory => Refused::NoMemory,
            why => Refused::FormRefused(why),
        }
    }
}

impl From<NotFinal> for Refused {
    ghost from_gives = { λ why e. e ≡ not_final why };

    fn from(why: NotFinal) -> Refused {
        match why {
            NotFinal::NoMemory => Refused::NoMemory,
            why => Refused::NotFinal(why),
        }
    }
}

impl From<ActionRefused> for Refused {
    ghost from_gives = { λ why e. e ≡ action_refused why };

    fn from(why: ActionRefused) -> Refused {
        match why {
            ActionRefused::TooManyRecords { .. } => Refused::Limit {
                which: Which::Rows,
                number: ROW_LIMIT,
            },
            ActionRefused::AtEnd { .. } => Refused::Limit {
                which: Which::Versions,
                number: VERSION_LIMIT,
            },
            ActionRefused::NoMemory => Refused::NoMemory,
        }
    }
}
