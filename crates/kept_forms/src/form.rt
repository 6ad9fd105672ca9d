ghost use Rattle.std.specs.Prelude.{◌≡◌, IfOk};
ghost use Rattle.field_text.specs.Steps.{Gives};
ghost use Rattle.form_read.specs.Forms.{Describes};
ghost use Rattle.question_rules.specs.Answered.{fault_of};
ghost use Rattle.kept_forms.specs.KeptForms.{auto_of, filled_of, id_of, initial_of, kept_form, lines_of, refusal_told};
ghost use Rattle.kept_forms.specs.KeptForms.{settled_of, version_of};

use crate::lines::{FieldLine, lines_in};
use crate::sheets::{filled_in, initial_in, settled_in};
use field_text::{Blob, Items, NoMemory, Tables, Text};
use form_def::FormDef;
use form_read::{FormRefused, read_form};
use question_rules::{AnswerRefused, Sheet};
use std::alloc::Global;
use std::marker::Model;

/// A form as a device keeps it, seen as the bytes of its document. What was read from the document stands beside it.
#[derive(Debug, Drop)]
pub struct KeptForm {
    document: Blob,
    definition: FormDef,
}

impl Model for KeptForm {
    ghost use Rattle.std.specs.Prelude.{List, ℕ};
    ghost use Rattle.form_read.specs.Forms.{Describes};

    ghost Value = { List ℕ };

    ghost view = { λ f. f.document };

    ghost invariant = { λ f. Describes f.document f.definition };
}

impl KeptForm {
    /// The form that a document describes (ODK XForms in a profile).
    pub fn read(alloc: Global, document: Blob) -> Result<KeptForm, FormRefused>
        ensures { Gives refusal_told (λ form. form) result (kept_form document) }
    {
        match read_form(alloc, document.bytes()) {
            Ok(definition) => Ok(KeptForm {
                document,
                definition,
            }),
            Err(why) => Err(why),
        }
    }

    pub fn document(&self) -> &Blob
        ensures { result.now ≡ self.now }
    {
        &self.document
    }

    /// The form that was read from the document.
    pub fn definition(&self) -> &FormDef
        ensures { Describes self.now result.now }
    {
        &self.definition
    }

    pub fn into_document(self) -> Blob
        ensures { result ≡ self }
    {
        let KeptForm { document, .. } = self;
        document
    }

    pub fn id(&self) -> &Text
        ensures { result.now ≡ id_of self.now }
    {
        &self.definition.id
    }

    pub fn version(&self) -> &Text
        ensures { result.now ≡ version_of self.now }
    {
        &self.definition.version
    }

    /// What the form says of sending by itself, if it says anything.
    pub fn auto_send(&self) -> Option<bool>
        ensures { result ≡ auto_of self.now }
    {
        self.definition.auto_send
    }

    /// The sheet that an entry of the form begins with: the first values, settled.
    pub fn initial_sheet<T: Tables>(&self, alloc: Global, tables: &T) -> Result<Sheet, NoMemory>
        ensures { IfOk result (λ sheet. sheet ≡ initial_of (T.tables tables.now) self.now) }
    {
        initial_in(alloc, tables, &self.definition)
    }

    /// The sheet with each calculated field at its value.
    pub fn settled_sheet<T: Tables>(
        &self,
        alloc: Global,
        tables: &T,
        sheet: &Sheet,
    ) -> Result<Sheet, NoMemory>
        ensures { IfOk result (λ settled. settled ≡ settled_of (T.tables tables.now) self.now sheet.now) }
    {
        settled_in(alloc, tables, sheet, &self.definition)
    }

    /// The sheet behind an answer to the question with this path, settled.
    pub fn filled_sheet<T: Tables>(
        &self,
        alloc: Global,
        tables: &T,
        sheet: &Sheet,
        path: &Text,
        value: &Text,
    ) -> Result<Sheet, AnswerRefused>
        ensures { Gives fault_of (λ filled. filled) result
            (filled_of (T.tables tables.now) self.now sheet.now path.now value.now) }
    {
        filled_in(alloc, tables, sheet, path, value, &self.definition)
    }

    /// A line for each field that is no group, in document order.
    pub fn lines<T: Tables>(
        &self,
        alloc: Global,
        tables: &T,
        sheet: &Sheet,
    ) -> Result<Items<FieldLine>, NoMemory>
        ensures { IfOk result (λ lines. lines ≡ lines_of (T.tables tables.now) self.now sheet.now) }
    {
        lines_in(alloc, tables, sheet, &self.definition)
    }
}
