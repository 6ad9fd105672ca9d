use form_list::*;
use rosa_doc::DocRefused;
use std::test::Fail;

static HASH: &str = "md5:D41D8cd98f00b204e9800998ecf8427e";

// What stands in a list, and why the list is refused.
static REFUSED: [(&str, ListRefused); 5] = [
    (
        "<xform/>",
        ListRefused::Missing {
            entry: 1,
            child: Child::FormId,
        },
    ),
    (
        "<xform><formID>a</formID><downloadUrl>/a</downloadUrl></xform>",
        ListRefused::Missing {
            entry: 1,
            child: Child::Hash,
        },
    ),
    (
        "<xform><formID>a</formID><hash>x</hash></xform>",
        ListRefused::Missing {
            entry: 1,
            child: Child::DownloadUrl,
        },
    ),
    (
        "<xform><formID>a</formID><hash>x</hash><downloadUrl>/a</downloadUrl></xform>",
        ListRefused::BadHash { entry: 1 },
    ),
    (
        "</xforms>",
        ListRefused::Doc(DocRefused::BadMarkup { at: 17 }),
    ),
];

#[test]
fn other_lists_are_refused(rt: HostRuntime) -> Result<(), Fail> {
    let alloc = rt.alloc();
    for (content, want) in &REFUSED {
        let document = std::format!(in alloc; "<xforms>{content}</xforms>")?;
        let refused = read_list(alloc, document.as_bytes()).err();
        assert_eq!(rt; refused, Some(*want));
    }
    let refused = read_manifest(alloc, b"<xforms/>").err();
    assert_eq!(rt; refused, Some(ListRefused::WrongRoot));
    Ok(())
}

#[test]
fn lists_are_read(rt: HostRuntime) -> Result<(), Fail> {
    let alloc = rt.alloc();
    let document = std::format!(in alloc;
        "<x:xforms xmlns:x='y'><z/><xform><downloadUrl>/a</downloadUrl>\
            <formID> a </formID><hash>{HASH}</hash></xform></x:xforms>"
    )?;
    let forms = read_list(alloc, document.as_bytes())?;
    let form = forms.get(0).ok_or("no form")?;
    assert_eq!(rt; form.form_id.as_str(), "a");
    assert_eq!(rt; form.hash.as_str(), HASH);
    assert_eq!(rt; form.download.as_str(), "/a");
    assert!(rt; form.name.as_str() == "" && form.manifest.is_none());
    let written = write_list(alloc, forms.as_slice())?;
    let want = std::format!(in alloc;
        "<xforms xmlns=\"http://openrosa.org/xforms/xformsList\"><xform><formID>a</formID>\
            <name></name><version></version><hash>{HASH}</hash><downloadUrl>/a</downloadUrl></xform></xforms>"
    )?;
    assert!(rt; written.bytes() == want.as_bytes());
    Ok(())
}

#[test]
fn manifests_are_read(rt: HostRuntime) -> Result<(), Fail> {
    let alloc = rt.alloc();
    let document = std::format!(in alloc;
        "<manifest><mediaFile type='entityList'><filename>t.csv</filename>\
            <hash>{HASH}</hash><downloadUrl>/t</downloadUrl></mediaFile></manifest>"
    )?;
    let files = read_manifest(alloc, document.as_bytes())?;
    let file = files.get(0).ok_or("no file")?;
    assert_eq!(rt; file.filename.as_str(), "t.csv");
    assert!(rt; file.entity_list);
    let written = write_manifest(alloc, files.as_slice())?;
    let again = read_manifest(alloc, written.bytes())?;
    assert!(rt; again.get(0).ok_or("no file again")?.entity_list);
    Ok(())
}
