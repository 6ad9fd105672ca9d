use field_text::{Blob, Text};
use form_def::FormDef;
use form_read::read_form;
use instance_doc::*;
use std::alloc::Global;
use std::test::Fail;

static FORM: &str =
    "<h><head><model><instance><d id='f' version='2'><g><a/><b/></g><c/><k><e/></k><meta>\
        <instanceName/><entity dataset='t' id='' create='1'><label/></entity></meta></d></instance></model></head>\
        <body/></h>";

// The text of each field, and whether it is shown.
static FIELDS: [(&str, bool); 10] = [
    ("", true),
    ("x<\r&", true),
    ("", true),
    ("", true),
    ("", true),
    ("y", false),
    ("N", false),
    ("i\"", true),
    ("1", true),
    ("", true),
];

static DOCUMENT: &str =
    "<?xml version=\"1.0\" encoding=\"UTF-8\"?><d xmlns:orx=\"http://openrosa.org/xforms\" \
        xmlns:entities=\"http://www.opendatakit.org/xforms/entities\" id=\"f\" version=\"2\"><g><a>x&lt;&#13;&amp;\
        </a><b/></g><c/><k/><orx:meta><orx:instanceID>uuid:1</orx:instanceID><orx:deprecatedID>uuid:0\
        </orx:deprecatedID><orx:instanceName>N</orx:instanceName><entities:entity dataset=\"t\" id=\"i&quot;\" \
        create=\"1\"><entities:label/></entities:entity></orx:meta></d>";

static OTHER: &str =
    "<d version='1'><meta><deprecatedID/></meta><meta><instanceID>b</instanceID></meta></d>";

fn form_of(alloc: Global, text: &str) -> Result<FormDef, Fail> {
    Ok(read_form(alloc, text.as_bytes())?)
}

fn text_of(alloc: Global, text: &str) -> Result<Text, Fail> {
    Ok(Text::from_bytes(alloc, text.as_bytes())?)
}

fn written(
    alloc: Global,
    form: &FormDef,
    texts: &[Text],
    shown: &[bool],
    meta: &Meta,
) -> Result<Blob, Fail> {
    Ok(doc_bytes(alloc, form, texts, shown, meta)?)
}

fn instance_of(alloc: Global, bytes: &[u8]) -> Result<Read, Fail> {
    Ok(read_instance(alloc, bytes)?)
}

#[test]
fn a_document_is_written(rt: HostRuntime) -> Result<(), Fail> {
    let form = form_of(rt.alloc(), FORM)?;
    let mut texts = Vec::new(rt.alloc());
    let mut shown = Vec::new(rt.alloc());
    for (text, is_shown) in &FIELDS {
        texts.push(text_of(rt.alloc(), text)?)?;
        shown.push(*is_shown)?;
    }
    let meta = Meta {
        instance_id: text_of(rt.alloc(), "uuid:1")?,
        deprecated: Some(text_of(rt.alloc(), "uuid:0")?),
    };
    let document = written(rt.alloc(), &form, texts.as_slice(), shown.as_slice(), &meta)?;
    assert!(rt; document.bytes() == DOCUMENT.as_bytes());
    Ok(())
}

#[test]
fn an_instance_is_read(rt: HostRuntime) -> Result<(), Fail> {
    let read = instance_of(rt.alloc(), DOCUMENT.as_bytes())?;
    assert_eq!(rt; read.form_id.as_str(), "f");
    assert_eq!(rt; read.version.as_str(), "2");
    assert_eq!(rt; read.instance_id.as_str(), "uuid:1");
    assert!(rt; matches!(&read.deprecated, Some(id) if id.as_str() == "uuid:0"));
    Ok(())
}

#[test]
fn the_first_of_a_name_counts(rt: HostRuntime) -> Result<(), Fail> {
    let read = instance_of(rt.alloc(), OTHER.as_bytes())?;
    assert_eq!(rt; read.form_id.as_str(), "");
    assert_eq!(rt; read.version.as_str(), "1");
    assert_eq!(rt; read.instance_id.as_str(), "");
    assert!(rt; matches!(&read.deprecated, Some(id) if id.as_str() == ""));
    Ok(())
}
