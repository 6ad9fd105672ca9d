use form_def::{Choices, FormDef, Kind};
use form_read::{FormRefused, read_form};
use rosa_doc::DocRefused;
use std::alloc::Global;
use std::test::Fail;

static FORM: &str = "<h><head><model><instance><d id='f'><a/><b/></d></instance><instance id='t'/>\
        <bind nodeset='/d/b' calculate='/d/a'/></model></head><body>\
        <select1 ref='/d/a'><itemset nodeset=\"instance('t')/root/item\"/></select1></body></h>";

fn form_of(alloc: Global, text: &str) -> Result<FormDef, Fail> {
    Ok(read_form(alloc, text.as_bytes())?)
}

fn refusal_of(alloc: Global, text: &str) -> Option<FormRefused> {
    read_form(alloc, text.as_bytes()).err()
}

#[test]
fn a_form_is_read(rt: HostRuntime) -> Result<(), Fail> {
    let form = form_of(rt.alloc(), FORM)?;
    assert_eq!(rt; form.id.as_str(), "f");
    let first = form.fields.get(0).ok_or("a field")?;
    assert_eq!(rt; first.path.as_str(), "/d/a");
    assert_eq!(rt; first.kind, Kind::One);
    assert!(rt; matches!(&first.choices, Choices::Rows { .. }));
    let second = form.fields.get(1).ok_or("a field")?;
    assert!(rt; second.calculate.is_some());
    assert_eq!(rt; form.order.as_slice(), [0, 1].as_slice());
    Ok(())
}

#[test]
fn others_are_refused(rt: HostRuntime) -> Result<(), Fail> {
    let unclosed = DocRefused::Unclosed { at: 3 };
    let refusal = refusal_of(rt.alloc(), "<h>");
    assert!(rt; matches!(refusal, Some(FormRefused::Doc(refusal)) if refusal == unclosed));
    let refusal = refusal_of(rt.alloc(), "<h><head/><body/></h>");
    assert!(rt; matches!(refusal, Some(FormRefused::NoPrimary)));
    Ok(())
}
