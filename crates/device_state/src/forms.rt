// Which forms are kept: the visible ones, and the hidden ones that something names.
ghost use Rattle.std.specs.Prelude.{◌≡◌};
ghost use Rattle.std.specs.List.{filter, list_any};
ghost use Rattle.device_state.specs.Purging.{entry_names, instance_names, is_kept, savepoint_names};

use crate::entry::OpenEntry;
use form_store::{FormRec, FormStore};
use instance_store::{InstanceRec, InstanceStore};
use savepoints::{Savepoint, Savepoints};

fn instance_names(kept: &FormRec, instance: &InstanceRec) -> bool
    ensures { result ≡ instance_names kept.now instance.now }
{
    instance.form.bytes() == kept.id.bytes() && instance.version.bytes() == kept.version.bytes()
}

fn savepoint_names(kept: &FormRec, savepoint: &Savepoint) -> bool
    ensures { result ≡ savepoint_names kept.now savepoint.now }
{
    savepoint.key.form.bytes() == kept.id.bytes()
        && savepoint.key.version.bytes() == kept.version.bytes()
}

fn entry_names(kept: &FormRec, entry: &Option<OpenEntry>) -> bool
    ensures { result ≡ entry_names kept.now entry.now }
{
    match entry {
        Some(entry) => {
            entry.form.id().bytes() == kept.id.bytes()
                && entry.form.version().bytes() == kept.version.bytes()
        }
        None => false,
    }
}

fn any_savepoint_names(kept: &FormRec, savepoints: &[Savepoint]) -> bool
    ensures { result ≡ list_any (savepoint_names kept.now) savepoints.now }
{
    savepoints
        .iter()
        .any(|savepoint| savepoint_names(kept, savepoint))
}

fn any_instance_names(kept: &FormRec, instances: &[InstanceRec]) -> bool
    ensures { result ≡ list_any (instance_names kept.now) instances.now }
{
    instances
        .iter()
        .any(|instance| instance_names(kept, instance))
}

fn is_kept(
    instances: &[InstanceRec],
    savepoints: &[Savepoint],
    entry: &Option<OpenEntry>,
    kept: &FormRec,
) -> bool
    ensures { result ≡ is_kept instances.now savepoints.now entry.now kept.now }
{
    kept.visible
        || entry_names(kept, entry)
        || any_savepoint_names(kept, savepoints)
        || any_instance_names(kept, instances)
}

// Takes out the hidden forms that nothing names.
pub(crate) fn purge(
    forms: &mut FormStore,
    instances: &InstanceStore,
    savepoints: &Savepoints,
    entry: &Option<OpenEntry>,
)
    ensures { forms.new.items
        ≡ filter (is_kept instances.now.items savepoints.now.items entry.now) forms.old.items }
{
    let mut place = 0;
    while place < forms.count() {
        let record = forms.get(place);
        if is_kept(instances.as_slice(), savepoints.as_slice(), entry, record) {
            place += 1;
        } else {
            forms.remove(place);
        }
    }
}
