use field_text::{Blob, Mode, Text};
use form_list::Listed;
use form_store::{FormRec, FormStore};
use std::alloc::Global;
use std::test::Fail;
use update_modes::*;

static HASH: &str = "md5:d41d8cd98f00b204e9800998ecf8427e";

fn text(alloc: Global, text: &str) -> Result<Text, Fail> {
    Ok(Text::from_bytes(alloc, text.as_bytes())?)
}

fn listed(alloc: Global, id: &str) -> Result<Listed, Fail> {
    Ok(Listed {
        form_id: text(alloc, id)?,
        name: text(alloc, "")?,
        version: text(alloc, "")?,
        hash: text(alloc, "md5:D41D8CD98F00B204E9800998ECF8427E")?,
        download: text(alloc, "/a")?,
        manifest: None,
    })
}

fn store(alloc: Global, id: &str, visible: bool) -> Result<FormStore, Fail> {
    let mut store = FormStore::make(alloc);
    store.reserve()?;
    store.put(FormRec {
        id: text(alloc, id)?,
        version: text(alloc, "")?,
        bytes: Blob::from_bytes(alloc, b"")?,
        hash: text(alloc, HASH)?,
        auto: None,
        put_at: 1,
        visible,
        complete: true,
    });
    Ok(store)
}

// The kept form and whether it is visible, the mode, and the places wanted and gone for the list of a and b.
static PLANS: [(&str, bool, Mode, &[u64], &[u64]); 5] = [
    ("a", true, Mode::Exact, &[1], &[]),
    ("a", false, Mode::Exact, &[0, 1], &[]),
    ("c", true, Mode::Exact, &[0, 1], &[0]),
    ("c", true, Mode::Previous, &[], &[]),
    ("c", true, Mode::Manual, &[1], &[]),
];

#[test]
fn forms_are_planned(rt: HostRuntime) -> Result<(), Fail> {
    let alloc = rt.alloc();
    let forms = vec![in alloc; listed(alloc, "a")?, listed(alloc, "b")?]?;
    let asked = vec![in alloc; text(alloc, "b")?]?;
    for (id, visible, mode, wanted, lost) in &PLANS {
        let store = store(alloc, id, *visible)?;
        let found = plan(alloc, *mode, forms.as_slice(), asked.as_slice(), &store)?;
        assert_eq!(rt; found.as_slice(), *wanted);
        let found = gone(alloc, *mode, forms.as_slice(), &store)?;
        assert_eq!(rt; found.as_slice(), *lost);
    }
    Ok(())
}
