ghost use Rattle.std.specs.Prelude.{◌≡◌, IfOk};

use crate::hand::{Lock, Round};
use field_io::Stage;
use field_text::{Blob, Mode, NoMemory, Text};
use std::alloc::Global;

/// What came of an exchange: the bytes of the reply as they were taken, or the call that failed.
#[derive(Debug, Drop)]
pub enum Outcome {
    Reply(Blob),
    Fault(Stage),
}

impl Outcome {
    pub fn copy(&self, alloc: Global) -> Result<Outcome, NoMemory>
        ensures { IfOk result (λ copy. copy ≡ self.now) }
    {
        Ok(match self {
            Outcome::Reply(bytes) => Outcome::Reply(bytes.copy(alloc)?),
            Outcome::Fault(stage) => Outcome::Fault(*stage),
        })
    }
}

/// What an entry into a form begins from.
#[derive(Debug, Drop)]
pub enum Base {
    /// A new instance of a form, by its id; with no version of the latest one.
    Blank { form: Text, version: Option<Text> },
    /// A draft, by the number of its instance.
    Draft(u64),
    /// An edit of a finalized instance, by its number.
    Edit(u64),
}

impl Base {
    pub fn copy(&self, alloc: Global) -> Result<Base, NoMemory>
        ensures { IfOk result (λ copy. copy ≡ self.now) }
    {
        match self {
            Base::Blank { form, version } => Ok(Base::Blank {
                form: form.copy(alloc)?,
                version: copy_option(alloc, version)?,
            }),
            Base::Draft(number) => Ok(Base::Draft(*number)),
            Base::Edit(number) => Ok(Base::Edit(*number)),
        }
    }
}

fn copy_option(alloc: Global, text: &Option<Text>) -> Result<Option<Text>, NoMemory>
    ensures { IfOk result (λ copy. copy ≡ text.now) }
{
    match text {
        Some(text) => Ok(Some(text.copy(alloc)?)),
        None => Ok(None),
    }
}

/// What becomes of a savepoint that is met.
#[derive(Clone, Copy, Debug, PartialEq, Eq)]
pub enum How {
    /// A savepoint that is met refuses the start.
    Fresh,
    /// It is gone on with.
    Recover,
    /// It is thrown away.
    Discard,
}

/// What a hand asks the device to do. Moments (`at`) are seconds since 1970; instances and jobs go by number.
#[derive(Debug, Drop)]
pub enum Command {
    AutoSend(bool),
    UpdateMode(Mode),
    TakeLock(Round),
    Release(Lock),
    /// The bytes of a form.
    Load(Blob),
    /// The id of a form that is wanted.
    Ask(Text),
    Fetched { job: u64, at: u64, outcome: Outcome },
    RoundDone,
    DropForm(Text),
    Start { base: Base, how: How },
    Fill { path: Text, value: Text },
    SaveDraft,
    Leave,
    Finalize,
    FinalizeAll,
    DropInstance(u64),
    SendBegun { number: u64, at: u64 },
    SendEnded { number: u64, outcome: Outcome },
    Tick,
}

impl Command {
    pub fn copy(&self, alloc: Global) -> Result<Command, NoMemory>
        ensures { IfOk result (λ copy. copy ≡ self.now) }
    {
        Ok(match self {
            Command::AutoSend(on) => Command::AutoSend(*on),
            Command::UpdateMode(mode) => Command::UpdateMode(*mode),
            Command::TakeLock(round) => Command::TakeLock(*round),
            Command::Release(lock) => Command::Release(*lock),
            Command::Load(bytes) => Command::Load(bytes.copy(alloc)?),
            Command::Ask(form) => Command::Ask(form.copy(alloc)?),
            Command::Fetched { job, at, outcome } => Command::Fetched {
                job: *job,
                at: *at,
                outcome: outcome.copy(alloc)?,
            },
            Command::RoundDone => Command::RoundDone,
            Command::DropForm(form) => Command::DropForm(form.copy(alloc)?),
            Command::Start { base, how } => Command::Start {
                base: base.copy(alloc)?,
                how: *how,
            },
            Command::Fill { path, value } => Command::Fill {
                path: path.copy(alloc)?,
                value: value.copy(alloc)?,
            },
            Command::SaveDraft => Command::SaveDraft,
            Command::Leave => Command::Leave,
            Command::Finalize => Command::Finalize,
            Command::FinalizeAll => Command::FinalizeAll,
            Command::DropInstance(number) => Command::DropInstance(*number),
            Command::SendBegun { number, at } => Command::SendBegun {
                number: *number,
                at: *at,
            },
            Command::SendEnded { number, outcome } => Command::SendEnded {
                number: *number,
                outcome: outcome.copy(alloc)?,
            },
            Command::Tick => Command::Tick,
        })
    }
}
