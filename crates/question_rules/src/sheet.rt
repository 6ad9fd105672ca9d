ghost use Rattle.std.specs.Prelude.{◌≡◌, ◌<◌, [], length, map, slice_index_or, slice_set, IfOk};

use field_text::{NoMemory, Text};
use form_def::FormDef;
use std::alloc::Global;
use std::marker::Model;

/// The texts of a form's fields, which contracts see as their list.
#[derive(Debug, Drop)]
pub struct Sheet {
    texts: Vec<Text>,
}

impl Model for Sheet {
    ghost use Rattle.std.specs.Prelude.{List, ℕ};

    ghost Value = { List (List ℕ) };

    ghost view = { λ s. s.texts.items };
}

/// A copy of the texts.
pub fn copy_texts(alloc: Global, texts: &[Text]) -> Result<Vec<Text>, NoMemory>
    ensures { IfOk result (λ copy. copy.items ≡ texts.now) }
{
    let mut copy = Vec::new(alloc);
    for text in texts {
        copy.push(text.copy(alloc)?)?;
    }
    Ok(copy)
}

impl Sheet {
    /// The sheet that a form begins with.
    pub fn initial(alloc: Global, form: &FormDef) -> Result<Sheet, NoMemory>
        ensures { IfOk result (λ sheet. sheet ≡ map (λ field. field.initial) form.now.fields) }
    {
        let mut texts = Vec::new(alloc);
        for field in form.fields.as_slice() {
            texts.push(field.initial.copy(alloc)?)?;
        }
        Ok(Sheet { texts })
    }

    pub fn copy(&self, alloc: Global) -> Result<Sheet, NoMemory>
        ensures { IfOk result (λ sheet. sheet ≡ self.now) }
    {
        Ok(Sheet {
            texts: copy_texts(alloc, self.texts.as_slice())?,
        })
    }

    pub fn texts(&self) -> &[Text]
        ensures { result.now ≡ self.now }
    {
        self.texts.as_slice()
    }

    /// The sheet of these texts, which it keeps.
    pub fn from_texts(texts: Vec<Text>) -> Sheet
        ensures { result ≡ texts.items }
    {
        Sheet { texts }
    }

    /// Stores the text of a field, and gives the one that it had.
    pub fn put_text(&mut self, field: u64, value: Text) -> Text
        requires { field < length self.old }
        ensures old { result ≡ slice_index_or self.old field [] }
        ensures new { self.new ≡ slice_set self.old field value }
    {
        std::mem::replace(&mut self.texts[field as usize], value)
    }
}
