ghost use Rattle.std.specs.Prelude.{◌≡◌, ◌↔◌, ◌≤◌, IsTrue, length};

use entity_lists::EntityLists;
use entity_merge::Action;
use field_ids::Draws;
use field_text::{Blob, Text};
use finalizer::{Final, MetaIn, NotFinal, finalize, finalized};
use form_def::FormDef;
use kept_forms::KeptForm;
use question_rules::Sheet;
use std::alloc::Global;
use std::process::Abort;
use std::test::Fail;

// A survey of trees whose instances make entities.
static FORM: &[u8] = b"<?xml version=\"1.0\"?>\n\
    <h:html xmlns=\"http://www.w3.org/2002/xforms\" xmlns:h=\"http://www.w3.org/1999/xhtml\" xmlns:\
    jr=\"http://openrosa.org/javarosa\" xmlns:orx=\"http://openrosa.org/xforms\" xmlns:entities=\"h\
    ttp://www.opendatakit.org/xforms/entities\">\n\
    <h:head><h:title>Tree survey</h:title>\n\
    <model entities:entities-version=\"2024.1.0\">\n\
    <instance><data id=\"tree\" version=\"3\"><plot><name/><age/></plot><species/><dead/><cause/><n\
    ext_age/><meta><entity dataset=\"trees\" create=\"1\" id=\"\"><label/></entity><instanceID/></m\
    eta></data></instance>\n\
    <instance id=\"kinds\"><root><item><name>oak</name><label>Oak</label></item><item><name>fir</na\
    me><label>Fir</label></item></root></instance>\n\
    <bind nodeset=\"/data/plot/name\" type=\"string\" required=\"true()\" entities:saveto=\"plot\"/\
    >\n\
    <bind nodeset=\"/data/plot/age\" type=\"int\" constraint=\" . &gt;= 0\"/>\n\
    <bind nodeset=\"/data/species\" type=\"string\" entities:saveto=\"species\"/>\n\
    <bind nodeset=\"/data/dead\" type=\"string\"/>\n\
    <bind nodeset=\"/data/cause\" type=\"string\" relevant=\" /data/dead  = 'yes'\" required=\"true\
    ()\"/>\n\
    <bind nodeset=\"/data/next_age\" type=\"string\" calculate=\" /data/plot/age  + 1\"/>\n\
    <bind nodeset=\"/data/meta/entity/@id\" type=\"string\" readonly=\"true()\"/>\n\
    <setvalue event=\"odk-instance-first-load\" ref=\"/data/meta/entity/@id\" type=\"string\" value\
    =\"uuid()\"/>\n\
    <bind nodeset=\"/data/meta/entity/label\" type=\"string\" readonly=\"true()\" calculate=\"conca\
    t( /data/species , ' ',  /data/plot/name )\"/>\n\
    <bind nodeset=\"/data/meta/instanceID\" type=\"string\" readonly=\"true()\" jr:preload=\"uid\"/\
    >\n\
    </model></h:head>\n\
    <h:body>\n\
    <group ref=\"/data/plot\"><label>Plot</label><input ref=\"/data/plot/name\"><label>Name</label>\
    </input><input ref=\"/data/plot/age\"><label>Age</label></input></group>\n\
    <select1 ref=\"/data/species\"><label>Species</label><itemset nodeset=\"instance('kinds')/root/\
    item\"><value ref=\"name\"/><label ref=\"label\"/></itemset></select1>\n\
    <select1 ref=\"/data/dead\"><label>Dead?</label><item><label>Yes</label><value>yes</value></ite\
    m><item><label>No</label><value>no</value></item></select1>\n\
    <input ref=\"/data/cause\"><label>Cause</label></input>\n\
    </h:body></h:html>\n";

// What a document says of the survey before an instance's own parts.
static DOCUMENT: &str =
    "<?xml version=\"1.0\" encoding=\"UTF-8\"?><data xmlns:orx=\"http://openrosa.org/xforms\" xmlns:\
    entities=\"http://www.opendatakit.org/xforms/entities\" id=\"tree\" version=\"3\"><plot><name>N\
    orth ridge</name><age>12</age></plot><species>oak</species><dead>no</dead><next_age>13</next_ag\
    e><orx:meta><orx:instanceID>uuid:00000000-0001-8000-8000-000000000001</orx:instanceID><entities\
    :entity dataset=\"trees\" id=\"00000000-0001-8000-8000-000000000002\" create=\"1\"><entities:la\
    bel>oak North ridge</entities:label></entities:entity></orx:meta></data>";

static FIRST: &str = "00000000-0001-8000-8000-000000000001";

static SECOND: &str = "00000000-0001-8000-8000-000000000002";

// The number of the field that is the entity's id.
const ENTITY_ID: usize = 7;

static ANSWERS: [(&str, &str); 4] = [
    ("/data/plot/name", "North ridge"),
    ("/data/plot/age", "12"),
    ("/data/species", "oak"),
    ("/data/dead", "no"),
];

fn text(alloc: Global, words: &str) -> Result<Text, Fail> {
    Ok(Text::from_bytes(alloc, words.as_bytes())?)
}

fn kept_form(alloc: Global) -> Result<KeptForm, Fail> {
    match KeptForm::read(alloc, Blob::from_bytes(alloc, FORM)?) {
        Ok(form) => Ok(form),
        Err(_) => Err("no form".into()),
    }
}

fn answered(
    alloc: Global,
    form: &KeptForm,
    sheet: Sheet,
    path: &str,
    value: &str,
) -> Result<Sheet, Fail> {
    let path = text(alloc, path)?;
    let value = text(alloc, value)?;
    match form.filled_sheet(alloc, &EntityLists::make(alloc), &sheet, &path, &value) {
        Ok(filled) => Ok(filled),
        Err(_) => Err("no answer".into()),
    }
}

// A sheet with these answers.
fn surveyed(alloc: Global, form: &KeptForm, answers: &[(&str, &str)]) -> Result<Sheet, Fail> {
    let mut sheet = form.initial_sheet(alloc, &EntityLists::make(alloc))?;
    for (path, value) in answers {
        sheet = answered(alloc, form, sheet, path, value)?;
    }
    Ok(sheet)
}

fn meta(next: u64, deprecated: Option<Text>) -> MetaIn
    requires { (1 ≤ next) × (next ≤ 1000) }
    ensures { result.draws.next ≡ next }
{
    MetaIn {
        draws: Draws { device: 1, next },
        deprecated,
    }
}

fn done(alloc: Global, form: &KeptForm, sheet: &Sheet, meta: &MetaIn) -> Result<Final, NotFinal>
    requires { meta.now.draws.next ≤ 1000 }
{
    finalized(alloc, form, sheet, &EntityLists::make(alloc), meta)
}

fn check_action(rt: &impl Abort, action: &Action) -> Result<(), Fail> {
    assert!(rt; action.create);
    assert_eq!(rt; action.list.as_str(), "trees");
    assert_eq!(rt; action.id.as_str(), SECOND);
    assert_eq!(rt; action.label.as_str(), "oak North ridge");
    assert_eq!(rt; action.props.len(), 2);
    let plot = action.props.get(0).ok_or("no property")?;
    assert_eq!(rt; plot.name.as_str(), "plot");
    assert_eq!(rt; plot.value.as_str(), "North ridge");
    let species = action.props.get(1).ok_or("one property")?;
    assert_eq!(rt; species.name.as_str(), "species");
    assert_eq!(rt; species.value.as_str(), "oak");
    Ok(())
}

fn check_final(rt: &impl Abort, done: &Final) -> Result<(), Fail> {
    assert_eq!(rt; done.bytes.bytes(), DOCUMENT.as_bytes());
    assert_eq!(rt;
        done.instance_id.as_str().strip_prefix("uuid:"),
        Some(FIRST)
    );
    let id = done.sheet.texts().get(ENTITY_ID).ok_or("no id")?;
    assert_eq!(rt; id.as_str(), SECOND);
    assert_eq!(rt; done.draws.next, 3);
    match &done.action {
        Some(action) => check_action(rt, action),
        None => Err("no action".into()),
    }
}

fn check_survey(rt: &impl Abort, alloc: Global, form: &KeptForm) -> Result<(), Fail> {
    let sheet = surveyed(alloc, form, &ANSWERS)?;
    match done(alloc, form, &sheet, &meta(1, None)) {
        Ok(done) => check_final(rt, &done),
        Err(_) => Err("refused".into()),
    }
}

#[test]
fn an_instance_is_finalized(rt: HostRuntime) -> Result<(), Fail> {
    let form = kept_form(rt.alloc())?;
    let checked = check_survey(&rt, rt.alloc(), &form);
    form.into_document();
    checked
}

// What an instance lacks: the kind, and the path of the field.
fn lack(refused: NotFinal) -> Option<(bool, Text)> {
    match refused {
        NotFinal::Required { path } => Some((true, path)),
        NotFinal::Constraint { path } => Some((false, path)),
        NotFinal::TooLong { length: _ } => None,
        NotFinal::NoMemory => None,
    }
}

fn check_lack(
    rt: &impl Abort,
    alloc: Global,
    form: &KeptForm,
    answers: &[(&str, &str)],
    required: bool,
    path: &str,
) -> Result<(), Fail> {
    let sheet = surveyed(alloc, form, answers)?;
    let refused = done(alloc, form, &sheet, &meta(1, None))
        .err()
        .ok_or("done")?;
    let found = lack(refused).ok_or("another refusal")?;
    assert_eq!(rt; found.0, required);
    assert_eq!(rt; found.1.as_str(), path);
    Ok(())
}

fn check_lacks(rt: &impl Abort, alloc: Global, form: &KeptForm) -> Result<(), Fail> {
    let name = ("/data/plot/name", "North ridge");
    check_lack(rt, alloc, form, &[], true, "/data/plot/name")?;
    let young = [name, ("/data/plot/age", "-1")];
    check_lack(rt, alloc, form, &young, false, "/data/plot/age")?;
    let dead = [name, ("/data/dead", "yes")];
    check_lack(rt, alloc, form, &dead, true, "/data/cause")
}

#[test]
fn an_instance_that_lacks_something_is_refused(rt: HostRuntime) -> Result<(), Fail> {
    let form = kept_form(rt.alloc())?;
    let checked = check_lacks(&rt, rt.alloc(), &form);
    form.into_document();
    checked
}

// The sheet has a text for each field.
fn fits(form: &FormDef, sheet: &Sheet) -> bool
    ensures { IsTrue result ↔ (length sheet.now ≡ length form.now.fields) }
{
    sheet.texts().len() == form.fields.len()
}

fn check_edit(rt: &impl Abort, alloc: Global, form: &FormDef, sheet: &Sheet) -> Result<(), Fail> {
    assert!(rt; fits(form, sheet));
    let meta = meta(4, Some(text(alloc, "uuid:1")?));
    let lists = EntityLists::make(alloc);
    let Ok(edit) = finalize(alloc, form, sheet, &lists, &meta) else {
        return Err("refused".into());
    };
    assert_eq!(rt; edit.draws.next, 5);
    let id = edit.sheet.texts().get(ENTITY_ID).ok_or("no id")?;
    assert_eq!(rt; id.as_str(), SECOND);
    Ok(())
}

// An edit of a finalized instance.
fn check_edit_of(rt: &impl Abort, alloc: Global, form: &KeptForm) -> Result<(), Fail> {
    let sheet = surveyed(alloc, form, &ANSWERS)?;
    match done(alloc, form, &sheet, &meta(1, None)) {
        Ok(done) => check_edit(rt, alloc, form.definition(), &done.sheet),
        Err(_) => Err("refused".into()),
    }
}

#[test]
fn an_edit_keeps_the_id_of_its_entity(rt: HostRuntime) -> Result<(), Fail> {
    let form = kept_form(rt.alloc())?;
    let checked = check_edit_of(&rt, rt.alloc(), &form);
    form.into_document();
    checked
}
