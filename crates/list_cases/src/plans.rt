ghost use Rattle.std.specs.Prelude.{◌≡◌, IfOk, None, codes};
ghost use Rattle.list_cases.specs.Plans.{hash_of};

use field_text::{Blob, Items, Mode, Text};
use form_list::Listed;
use form_store::{FormRec, FormStore};
use std::alloc::{AllocError, Global};
use update_modes::{gone, plan};

// What a line says: the mode, the forms listed and asked for, and those kept.
#[derive(Drop)]
struct Plan {
    mode: Mode,
    listed: Vec<Listed>,
    asked: Vec<Text>,
    forms: FormStore,
}

fn text(alloc: Global, text: &str) -> Result<Text, AllocError>
    ensures { IfOk result (λ copy. copy ≡ text.now) }
{
    Ok(Text::from_string(String::from_str(alloc, text)?))
}

// The hash whose digits are all this one.
fn hash(alloc: Global, digit: &str) -> Result<Text, AllocError>
    ensures { IfOk result (λ hash. hash ≡ hash_of digit.now) }
{
    let digits = digit.repeat(alloc, 32)?;
    let mut hash = String::from_str(alloc, "md5:")?;
    hash.push_str(digits.as_str())?;
    Ok(Text::from_string(hash))
}

// The form listed of `ID:DIGIT`.
fn listed(alloc: Global, id: &str, digit: &str) -> Result<Listed, AllocError>
    ensures id { IfOk result (λ form. form.form_id ≡ id.now) }
    ensures version { IfOk result (λ form. form.version ≡ codes "2") }
    ensures hash { IfOk result (λ form. form.hash ≡ hash_of digit.now) }
    ensures manifest { IfOk result (λ form. form.manifest ≡ None) }
{
    Ok(Listed {
        form_id: text(alloc, id)?,
        name: text(alloc, "")?,
        version: text(alloc, "2")?,
        hash: hash(alloc, digit)?,
        download: text(alloc, "/a")?,
        manifest: None,
    })
}

// The form kept of `ID:VERSION:DIGIT:FLAGS`; the flags are `v` where it is visible and `c` where it is complete.
fn kept(alloc: Global, words: &[&str], put_at: u64) -> Result<Option<FormRec>, AllocError> {
    let [id, version, digit, flags] = words else {
        return Ok(None);
    };
    let Ok(bytes) = Blob::from_bytes(alloc, digit.as_bytes()) else {
        return Err(AllocError);
    };
    Ok(Some(FormRec {
        id: text(alloc, id)?,
        version: text(alloc, version)?,
        bytes,
        hash: hash(alloc, digit)?,
        auto: None,
        put_at,
        visible: flags.contains('v'),
        complete: flags.contains('c'),
    }))
}

impl Plan {
    fn keep(&mut self, alloc: Global, words: &[&str]) -> Result<(), AllocError> {
        let Some(form) = kept(alloc, words, self.forms.count())? else {
            return Ok(());
        };
        if self.forms.reserve().is_err() {
            return Err(AllocError);
        }
        self.forms.put(form);
        Ok(())
    }

    fn take(&mut self, alloc: Global, word: &str) -> Result<(), AllocError> {
        let words: Vec<&str> = word.split(':').collect(alloc)?;
        match words.as_slice() {
            ["list", id, digit] => self.listed.push(listed(alloc, id, digit)?)?,
            ["ask", id] => self.asked.push(text(alloc, id)?)?,
            ["kept", words @ ..] => self.keep(alloc, words)?,
            ["exact"] => self.mode = Mode::Exact,
            ["previous"] => self.mode = Mode::Previous,
            _ => self.mode = Mode::Manual,
        }
        Ok(())
    }
}

fn push_places(alloc: Global, places: &Items<u64>, line: &mut String) -> Result<(), AllocError> {
    for place in places.as_slice() {
        let place = format!(in alloc; " {place}")?;
        line.push_str(place.as_str())?;
    }
    Ok(())
}

fn answer(alloc: Global, case: &Plan) -> Result<String, AllocError> {
    let listed = case.listed.as_slice();
    let Ok(wanted) = plan(alloc, case.mode, listed, case.asked.as_slice(), &case.forms) else {
        return Err(AllocError);
    };
    let Ok(lost) = gone(alloc, case.mode, listed, &case.forms) else {
        return Err(AllocError);
    };
    let mut line = String::from_str(alloc, "wanted")?;
    push_places(alloc, &wanted, &mut line)?;
    line.push_str(" gone")?;
    push_places(alloc, &lost, &mut line)?;
    Ok(line)
}

/// The places that are wanted and gone in the case of a line.
pub fn planned(alloc: Global, line: &str) -> Result<String, AllocError> {
    let mut case = Plan {
        mode: Mode::Manual,
        listed: Vec::new(alloc),
        asked: Vec::new(alloc),
        forms: FormStore::make(alloc),
    };
    for word in line.split(' ') {
        case.take(alloc, word)?;
    }
    answer(alloc, &case)
}
