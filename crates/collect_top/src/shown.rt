// What the commands print that read no script.
ghost use Rattle.std.specs.Prelude.{◌≡◌, IfOk, List, Option, ℕ, Some};
ghost use Rattle.device_rules.specs.Trail.{entries_of};
ghost use Rattle.collect_script.specs.Ends.{streams};
ghost use Rattle.collect_top.specs.Shown.{Shows, shown_text};

use crate::Work;
use crate::log::log_text;
use collect_script::ScriptStop;
use collect_text::{Shape, print_answer};
use device_core::Device;
use device_rules::{Query, Told};
use disk_model::Disk;
use entry_form::Hand;
use field_io::{Failed, Sink};
use field_text::NoMemory;
use line_io::put_all;
use std::alloc::Global;

/// The line of how much a device keeps.
pub fn check_text<D: Disk>(alloc: Global, device: &Device<D>) -> Result<Vec<u8>, NoMemory>
    ensures { IfOk result (λ text. shown_text Work.Check (entries_of device.now.entries) ≡ Some text.items) }
{
    let Ok(Told { position, answer }) = device.ask(alloc, Hand::Script, &Query::Counts) else {
        return Err(NoMemory);
    };
    let mut text = Vec::new(alloc);
    print_answer(alloc, position, &Shape::Plain, &answer, &mut text)?;
    Ok(text)
}

/// Puts a text, if there was memory for it.
pub fn put_text<Si: Sink>(text: Result<Vec<u8>, NoMemory>, sink: &mut Si) -> Result<(), ScriptStop>
    ensures { (left : Option (List ℕ)) (faults : ℕ) (all : List ℕ) → IfOk text (λ made. made.items ≡ all)
        → Shows all
        (streams left (Si.held sink.old) faults (Si.faults sink.old))
        (streams left (Si.held sink.new) faults (Si.faults sink.new))
        result }
{
    let text = match text {
        Ok(text) => text,
        Err(NoMemory) => return Err(ScriptStop::NoMemory),
    };
    match put_all(sink, &text) {
        Ok(()) => Ok(()),
        Err(Failed) => Err(ScriptStop::WriteFault),
    }
}
