// The limits of what a command carries.
ghost use Rattle.std.specs.Prelude.{◌≡◌};
ghost use Rattle.device_rules.specs.Limits.{is_short, is_form_short, is_reply_short, is_moment, is_version_short};
ghost use Rattle.device_rules.specs.Limits.{is_base_short, is_outcome_short, is_within_limits};

use entry_form::{Base, Command, Outcome};
use field_text::{Blob, Text};

pub(crate) fn is_short(text: &Text) -> bool
    ensures { result ≡ is_short text.now }
{
    text.bytes().len() <= 4_096
}

fn is_form_short(form: &Blob) -> bool
    ensures { result ≡ is_form_short form.now }
{
    form.bytes().len() <= 262_144
}

fn is_moment(at: u64) -> bool
    ensures { result ≡ is_moment at }
{
    at < 253_402_300_800
}

fn is_version_short(version: &Option<Text>) -> bool
    ensures { result ≡ is_version_short version.now }
{
    match version {
        Some(version) => is_short(version),
        None => true,
    }
}

fn is_base_short(base: &Base) -> bool
    ensures { result ≡ is_base_short base.now }
{
    match base {
        Base::Blank { form, version } => is_short(form) && is_version_short(version),
        Base::Draft(_) | Base::Edit(_) => true,
    }
}

fn is_outcome_short(outcome: &Outcome) -> bool
    ensures { result ≡ is_outcome_short outcome.now }
{
    match outcome {
        Outcome::Reply(reply) => reply.bytes().len() <= 300_000,
        Outcome::Fault(_) => true,
    }
}

/// Whether each text, blob and moment of the command is within its limit.
pub fn is_within_limits(command: &Command) -> bool
    ensures { result ≡ is_within_limits command.now }
{
    match command {
        Command::Load(form) => is_form_short(form),
        Command::Ask(id) | Command::DropForm(id) => is_short(id),
        Command::Fetched { at, outcome, .. } => is_moment(*at) && is_outcome_short(outcome),
        Command::Start { base, .. } => is_base_short(base),
        Command::Fill { path, .. } => is_short(path),
        Command::SendBegun { at, .. } => is_moment(*at),
        Command::SendEnded { outcome, .. } => is_outcome_short(outcome),
        Command::AutoSend(_)
        | Command::UpdateMode(_)
        | Command::TakeLock(_)
        | Command::Release(_)
        | Command::RoundDone
        | Command::SaveDraft
        | Command::Leave
        | Command::Finalize
        | Command::FinalizeAll
        | Command::DropInstance(_)
        | Command::Tick => true,
    }
}
