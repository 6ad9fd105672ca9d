use form_outline::*;
use rosa_doc::DocRefused;
use std::alloc::Global;
use std::test::Fail;

static FORM: &str = "<h><head><model><instance><d id='f' version='2'><a>x</a></d></instance>\
        <bind nodeset='/d/a'/></model></head><body><input ref='/d/a'/></body></h>";

fn outline_of(alloc: Global, text: &str) -> Result<Outline, Fail> {
    Ok(read_outline(alloc, text.as_bytes())?)
}

fn fault_of(alloc: Global, text: &str) -> Option<OutlineFault> {
    read_outline(alloc, text.as_bytes()).err()
}

#[test]
fn an_outline_is_read(rt: HostRuntime) -> Result<(), Fail> {
    let outline = outline_of(rt.alloc(), FORM)?;
    assert_eq!(rt; outline.root.as_str(), "d");
    assert_eq!(rt; outline.id.as_str(), "f");
    assert_eq!(rt; outline.version.as_str(), "2");
    assert_eq!(rt; outline.primary.len(), 1);
    assert_eq!(rt; outline.model.len(), 2);
    assert_eq!(rt; outline.controls.len(), 1);
    assert!(rt; !outline.body_first);
    Ok(())
}

#[test]
fn others_are_refused(rt: HostRuntime) -> Result<(), Fail> {
    let unclosed = DocRefused::Unclosed { at: 3 };
    let fault = fault_of(rt.alloc(), "<h>");
    assert_eq!(rt; fault, Some(OutlineFault::Doc(unclosed)));
    let fault = fault_of(rt.alloc(), "<h><head/><body/></h>");
    assert_eq!(rt; fault, Some(OutlineFault::NoPrimary));
    Ok(())
}
