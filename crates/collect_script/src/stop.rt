/// Why the lines of a script were not answered to their end.
#[derive(Clone, Copy, Debug, PartialEq, Eq)]
pub enum ScriptStop {
    /// A call of the source failed.
    ReadFault,
    /// A call of the sink failed.
    WriteFault,
    /// A call of the disk failed.
    DiskFault,
    NoMemory,
    /// A line has more than 8,192 bytes.
    LineTooLong,
    /// A command's entry doesn't fit the journal, which has this length.
    JournalFull { length: u64 },
    /// The script has more than 16,777,216 bytes.
    ScriptTooLong,
}

impl From<field_text::NoMemory> for ScriptStop {
    ghost use Rattle.collect_script.specs.declared.stop.ScriptStop.TheVariants.{NoMemory};
    ghost use Rattle.std.specs.Prelude.{◌≡◌};

    ghost from_gives = { λ _ e. e ≡ NoMemory };

    fn from(_: field_text::NoMemory) -> ScriptStop {
        ScriptStop::NoMemory
    }
}
