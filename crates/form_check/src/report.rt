// What the author of a form is told of a document.
ghost use Rattle.std.specs.Prelude.{◌≡◌, ◌≢◌, false, IfOk};
ghost use Rattle.form_check.specs.Reports.{Reports};

use crate::accepted::form_text;
use crate::refused::refused_line;
use field_text::NoMemory;
use form_read::{FormRefused, read_form};
use std::alloc::Global;

#[derive(Debug, Drop)]
pub struct Told {
    /// Whether the document is a form.
    pub is_form: bool,
    pub text: Vec<u8>,
}

fn is_memory(why: &FormRefused) -> bool
    ensures { result ≡ false → why.now ≢ FormRefused.NoMemory }
{
    matches!(why, FormRefused::NoMemory)
}

/// What is told of the document. Want of memory is told of none.
pub fn report(alloc: Global, document: &[u8]) -> Result<Told, NoMemory>
    ensures { IfOk result (λ told. Reports document.now told.is_form told.text.items) }
{
    let why = match read_form(alloc, document) {
        Ok(form) => {
            return Ok(Told {
                is_form: true,
                text: form_text(alloc, &form)?,
            });
        }
        Err(why) => why,
    };
    if is_memory(&why) {
        return Err(NoMemory);
    }
    Ok(Told {
        is_form: false,
        text: refused_line(alloc, document, &why)?,
    })
}
