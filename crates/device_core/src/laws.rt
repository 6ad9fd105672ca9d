// What holds of every image, as the contract of a function that does nothing.
ghost use Rattle.std.specs.Prelude.{◌≡◌, List, ℕ, Result};
ghost use Rattle.entry_form.specs.declared.entry.Entry.{Entry};
ghost use Rattle.device_journal.specs.declared.fault.OpenFault.{OpenFault};
ghost use Rattle.device_core.specs.Images.{ReadsAs};

/// A law of the definitions: an image reads as one list of entries, or has one thing wrong with it.
pub fn an_image_reads_as_one_thing()
    ensures { (image : List ℕ) (one other : Result (List Entry) OpenFault) → ReadsAs image one → ReadsAs image other
        → one ≡ other }
{}
