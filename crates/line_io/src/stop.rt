/// Why no line could be read.
#[derive(Clone, Copy, Debug, PartialEq, Eq)]
pub enum ReadStop {
    /// A call of the source failed.
    ReadFault,
    /// A line has more than 8,192 bytes.
    LineTooLong,
    /// The script has more than 16,777,216 bytes.
    ScriptTooLong,
    NoMemory,
}

impl From<field_text::NoMemory> for ReadStop {
    ghost use Rattle.line_io.specs.declared.stop.ReadStop.TheVariants.{NoMemory};
    ghost use Rattle.std.specs.Prelude.{◌≡◌};

    ghost from_gives = { λ _ e. e ≡ NoMemory };

    fn from(_: field_text::NoMemory) -> ReadStop {
        ReadStop::NoMemory
    }
}
