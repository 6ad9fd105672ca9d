ghost use Rattle.std.specs.Prelude.{◌≡◌};

use entry_form::Command;

/// The kind of a command.
#[derive(Clone, Copy, Debug, PartialEq, Eq)]
pub enum CommandKind {
    AutoSend,
    UpdateMode,
    TakeLock,
    Release,
    Load,
    Ask,
    Fetched,
    RoundDone,
    DropForm,
    Start,
    Fill,
    SaveDraft,
    Leave,
    Finalize,
    FinalizeAll,
    DropInstance,
    SendBegun,
    SendEnded,
    Tick,
}

impl CommandKind {
    ghost use Rattle.entry_codec.specs.Choices.{kind_byte};
    ghost use Rattle.entry_codec.specs.Spelling.{kind_of};

    pub fn of(command: &Command) -> CommandKind
        ensures { result ≡ kind_of command.now }
    {
        match command {
            Command::AutoSend(_) => CommandKind::AutoSend,
            Command::UpdateMode(_) => CommandKind::UpdateMode,
            Command::TakeLock(_) => CommandKind::TakeLock,
            Command::Release(_) => CommandKind::Release,
            Command::Load(_) => CommandKind::Load,
            Command::Ask(_) => CommandKind::Ask,
            Command::Fetched { .. } => CommandKind::Fetched,
            Command::RoundDone => CommandKind::RoundDone,
            Command::DropForm(_) => CommandKind::DropForm,
            Command::Start { .. } => CommandKind::Start,
            Command::Fill { .. } => CommandKind::Fill,
            Command::SaveDraft => CommandKind::SaveDraft,
            Command::Leave => CommandKind::Leave,
            Command::Finalize => CommandKind::Finalize,
            Command::FinalizeAll => CommandKind::FinalizeAll,
            Command::DropInstance(_) => CommandKind::DropInstance,
            Command::SendBegun { .. } => CommandKind::SendBegun,
            Command::SendEnded { .. } => CommandKind::SendEnded,
            Command::Tick => CommandKind::Tick,
        }
    }

    /// The byte that stands first in an entry with a command of this kind.
    pub fn byte(self) -> u8
        ensures { result ≡ kind_byte self }
    {
        match self {
            CommandKind::AutoSend => 2,
            CommandKind::UpdateMode => 3,
            CommandKind::TakeLock => 4,
            CommandKind::Release => 5,
            CommandKind::Load => 6,
            CommandKind::Ask => 7,
            CommandKind::Fetched => 8,
            CommandKind::RoundDone => 9,
            CommandKind::DropForm => 10,
            CommandKind::Start => 11,
            CommandKind::Fill => 12,
            CommandKind::SaveDraft => 13,
            CommandKind::Leave => 14,
            CommandKind::Finalize => 15,
            CommandKind::FinalizeAll => 16,
            CommandKind::DropInstance => 17,
            CommandKind::SendBegun => 18,
            CommandKind::SendEnded => 19,
            CommandKind::Tick => 20,
        }
    }
}

/// The kind of an entry.
#[derive(Clone, Copy, Debug, PartialEq, Eq)]
pub enum Kind {
    Opened,
    Done(CommandKind),
}

/// What an entry into a form begins from.
#[derive(Clone, Copy, Debug, PartialEq, Eq)]
pub enum BaseKind {
    Blank,
    Draft,
    Edit,
}

/// Whose an opening is.
#[derive(Clone, Copy, Debug, PartialEq, Eq)]
pub enum Opener {
    Script,
}
