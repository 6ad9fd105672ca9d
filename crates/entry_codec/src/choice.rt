ghost use Rattle.std.specs.Prelude.{◌≡◌, ◌==◌, ℕ, List, find};
ghost use Rattle.entry_codec.specs.Reading.{Gives, choice_at};

use crate::fault::ReadFault;
use crate::kind::{BaseKind, CommandKind, Kind, Opener};
use entry_form::{Hand, How, Lock, Round};
use field_io::Stage;
use field_text::Mode;

/// A value that is spelled in one byte.
pub trait Choice: Copy + Drop + 'static {
    ghost byte_of: { Self → ℕ };

    /// Each value once.
    ghost choices: { List Self };

    fn byte(self) -> u8
        ensures { result ≡ byte_of self };

    fn all() -> &'static [Self]
        ensures { result.now ≡ choices };
}

fn find_choice<C: Choice>(byte: u8) -> Option<C>
    ensures { result ≡ find (λ choice. C.byte_of choice == byte) C.choices }
{
    C::all()
        .iter()
        .copied()
        .find(|choice| choice.byte() == byte)
}

/// The value whose byte stands first.
pub fn choice_of<C: Choice>(bytes: &[u8]) -> Result<(C, &[u8]), ReadFault>
    ensures { Gives (λ x. (x.0, x.1.now)) result (choice_at C.byte_of C.choices bytes.now) }
{
    let Some((first, rest)) = bytes.split_first() else {
        return Err(ReadFault::Stopped { left: 0 });
    };
    match find_choice::<C>(*first) {
        Some(choice) => Ok((choice, rest)),
        None => Err(ReadFault::Stopped { left: bytes.len() }),
    }
}

impl Choice for bool {
    ghost use Rattle.entry_codec.specs.Choices.{bool_byte};
    ghost use Rattle.entry_codec.specs.Reading.{bools};

    ghost byte_of = { bool_byte };

    ghost choices = { bools };

    fn byte(self) -> u8 {
        u8::from(self)
    }

    fn all() -> &'static [bool] {
        &[false, true]
    }
}

impl Choice for Mode {
    ghost use Rattle.entry_codec.specs.Choices.{mode_byte};
    ghost use Rattle.entry_codec.specs.Reading.{modes};

    ghost byte_of = { mode_byte };

    ghost choices = { modes };

    fn byte(self) -> u8 {
        match self {
            Mode::Manual => 0,
            Mode::Previous => 1,
            Mode::Exact => 2,
        }
    }

    fn all() -> &'static [Mode] {
        &[Mode::Manual, Mode::Previous, Mode::Exact]
    }
}

impl Choice for Round {
    ghost use Rattle.entry_codec.specs.Choices.{round_byte};
    ghost use Rattle.entry_codec.specs.Reading.{rounds};

    ghost byte_of = { round_byte };

    ghost choices = { rounds };

    fn byte(self) -> u8 {
        match self {
            Round::Forms => 0,
            Round::Lists => 1,
            Round::Send => 2,
        }
    }

    fn all() -> &'static [Round] {
        &[Round::Forms, Round::Lists, Round::Send]
    }
}

impl Choice for Lock {
    ghost use Rattle.entry_codec.specs.Choices.{lock_byte};
    ghost use Rattle.entry_codec.specs.Reading.{locks};

    ghost byte_of = { lock_byte };

    ghost choices = { locks };

    fn byte(self) -> u8 {
        match self {
            Lock::Forms => 0,
            Lock::Instances => 1,
        }
    }

    fn all() -> &'static [Lock] {
        &[Lock::Forms, Lock::Instances]
    }
}

impl Choice for How {
    ghost use Rattle.entry_codec.specs.Choices.{how_byte};
    ghost use Rattle.entry_codec.specs.Reading.{hows};

    ghost byte_of = { how_byte };

    ghost choices = { hows };

    fn byte(self) -> u8 {
        match self {
            How::Fresh => 0,
            How::Recover => 1,
            How::Discard => 2,
        }
    }

    fn all() -> &'static [How] {
        &[How::Fresh, How::Recover, How::Discard]
    }
}

impl Choice for Stage {
    ghost use Rattle.entry_codec.specs.Choices.{stage_byte};
    ghost use Rattle.entry_codec.specs.Reading.{stages};

    ghost byte_of = { stage_byte };

    ghost choices = { stages };

    fn byte(self) -> u8 {
        match self {
            Stage::Dial => 0,
            Stage::Send => 1,
            Stage::Take => 2,
        }
    }

    fn all() -> &'static [Stage] {
        &[Stage::Dial, Stage::Send, Stage::Take]
    }
}

impl Choice for BaseKind {
    ghost use Rattle.entry_codec.specs.Reading.{base_kind_byte};
    ghost use Rattle.entry_codec.specs.Reading.{base_kinds};

    ghost byte_of = { base_kind_byte };

    ghost choices = { base_kinds };

    fn byte(self) -> u8 {
        match self {
            BaseKind::Blank => 0,
            BaseKind::Draft => 1,
            BaseKind::Edit => 2,
        }
    }

    fn all() -> &'static [BaseKind] {
        &[BaseKind::Blank, BaseKind::Draft, BaseKind::Edit]
    }
}

impl Choice for Hand {
    ghost use Rattle.entry_form.specs.Hand.{hand_number};
    ghost use Rattle.entry_codec.specs.Reading.{hands};

    ghost byte_of = { hand_number };

    ghost choices = { hands };

    fn byte(self) -> u8 {
        match self {
            Hand::Script => 0,
            Hand::Sender => 1,
            Hand::Updater => 2,
            Hand::Lister => 3,
        }
    }

    fn all() -> &'static [Hand] {
        &[Hand::Script, Hand::Sender, Hand::Updater, Hand::Lister]
    }
}

impl Choice for Opener {
    ghost use Rattle.entry_codec.specs.Reading.{opener_byte, openers};

    ghost byte_of = { opener_byte };

    ghost choices = { openers };

    fn byte(self) -> u8 {
        match self {
            Opener::Script => 0,
        }
    }

    fn all() -> &'static [Opener] {
        &[Opener::Script]
    }
}

impl Choice for Kind {
    ghost use Rattle.entry_codec.specs.Reading.{entry_kind_byte, entry_kinds};

    ghost byte_of = { entry_kind_byte };

    ghost choices = { entry_kinds };

    fn byte(self) -> u8 {
        match self {
            Kind::Opened => 1,
            Kind::Done(kind) => kind.byte(),
        }
    }

    fn all() -> &'static [Kind] {
        &[
            Kind::Opened,
            Kind::Done(CommandKind::AutoSend),
            Kind::Done(CommandKind::UpdateMode),
            Kind::Done(CommandKind::TakeLock),
            Kind::Done(CommandKind::Release),
            Kind::Done(CommandKind::Load),
            Kind::Done(CommandKind::Ask),
            Kind::Done(CommandKind::Fetched),
            Kind::Done(CommandKind::RoundDone),
            Kind::Done(CommandKind::DropForm),
            Kind::Done(CommandKind::Start),
            Kind::Done(CommandKind::Fill),
            Kind::Done(CommandKind::SaveDraft),
            Kind::Done(CommandKind::Leave),
            Kind::Done(CommandKind::Finalize),
            Kind::Done(CommandKind::FinalizeAll),
            Kind::Done(CommandKind::DropInstance),
            Kind::Done(CommandKind::SendBegun),
            Kind::Done(CommandKind::SendEnded),
            Kind::Done(CommandKind::Tick),
        ]
    }
}
