// The log of a device: a line for each entry.
ghost use Rattle.std.specs.Prelude.{◌≡◌, IfOk};
ghost use Rattle.device_rules.specs.Trail.{entries_of};
ghost use Rattle.collect_top.specs.Log.{log_text};

use collect_text::print_entry;
use device_rules::Marked;
use field_text::NoMemory;
use std::alloc::Global;

// The lines of all entries.
pub(crate) fn log_text(alloc: Global, entries: &[Marked]) -> Result<Vec<u8>, NoMemory>
    ensures { IfOk result (λ text. text.items ≡ log_text (entries_of entries.now)) }
{
    let mut text = Vec::new(alloc);
    let mut position = 0;
    for marked in entries {
        position += 1;
        print_entry(alloc, position, &marked.entry, &mut text)?;
    }
    Ok(text)
}
