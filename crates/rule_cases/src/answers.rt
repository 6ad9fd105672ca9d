ghost use Rattle.std.specs.Prelude.{◌≡◌, ◌++◌, OnOk, string_bytes};
ghost use Rattle.rule_cases.specs.Values.{offers_printed, shown_word};

use crate::forms::form_of;
use crate::printing::Printer;
use crate::tables::{OneList, forest, text};
use crate::values::print_truth;
use case_lines::{cut, print_all, push_all, text_of};
use expr_values::{Row, Scope, holds, offers, offers_choice, read_text};
use field_text::{NoMemory, Text};
use form_def::{Choices, Expr, FormDef};
use question_rules::{
    AnswerRefused, Fault, Sheet, fill, first_fault, read_field, settle, shown, shown_marks,
};
use std::alloc::{AllocError, Global};

/// A form while it is filled.
#[derive(Drop)]
pub struct Filling {
    form: FormDef,
    sheet: Sheet,
    tables: OneList,
}

fn settled(alloc: Global, form: &FormDef, tables: &OneList) -> Result<Sheet, NoMemory> {
    let mut sheet = Sheet::initial(alloc, form)?;
    if sheet.texts().len() == form.fields.len() {
        settle(alloc, form, &mut sheet, tables)?;
    }
    Ok(sheet)
}

fn is_relevant(
    alloc: Global,
    scope: &Scope<'_, OneList>,
    relevant: &Expr,
) -> Result<bool, NoMemory> {
    holds(alloc, scope, &Row::Absent, relevant)
}

fn print_values(out: &mut String, values: &[Text]) -> Result<(), AllocError>
    ensures { OnOk result (string_bytes out.new ≡ string_bytes out.old ++ offers_printed values.now) }
{
    out.push_str("offers")?;
    print_all::<_, Printer>(out, values)
}

fn shown_word(is_shown: bool) -> &'static str
    ensures { result.now ≡ shown_word is_shown }
{
    if is_shown { "shown" } else { "hidden" }
}

impl Filling {
    /// The form of a document with its settled initial sheet; none where the document is no form.
    pub fn begun(alloc: Global, document: &[u8]) -> Option<Filling> {
        let Ok(form) = form_of(alloc, document) else {
            return None;
        };
        let Ok(tables) = forest(alloc) else {
            return None;
        };
        match settled(alloc, &form, &tables) {
            Ok(sheet) => Some(Filling {
                form,
                sheet,
                tables,
            }),
            Err(NoMemory) => None,
        }
    }

    fn number_of(&self, path: &str) -> u64 {
        let fields = self.form.fields.as_slice();
        match fields
            .iter()
            .position(|field| field.path.bytes() == path.as_bytes())
        {
            Some(number) => number as u64,
            None => 0,
        }
    }

    fn fill(&mut self, alloc: Global, path: &Text, value: &Text) -> Result<(), AnswerRefused> {
        if self.sheet.texts().len() != self.form.fields.len() {
            return Err(AnswerRefused::NoMemory);
        }
        fill(
            alloc,
            &self.form,
            &mut self.sheet,
            &self.tables,
            path,
            value,
        )
    }

    fn read(&self, alloc: Global, number: u64) -> Result<Text, NoMemory> {
        let fields = self.form.fields.len();
        if self.sheet.texts().len() != fields || number as usize >= fields {
            return Err(NoMemory);
        }
        read_field(alloc, &self.form, &self.sheet, &self.tables, number)
    }

    fn is_shown(&self, alloc: Global, number: u64) -> Result<bool, NoMemory> {
        let fields = self.form.fields.len();
        if self.sheet.texts().len() != fields || number as usize >= fields {
            return Err(NoMemory);
        }
        shown(alloc, &self.form, &self.sheet, &self.tables, number)
    }

    fn first_fault(&self, alloc: Global) -> Result<Option<Fault>, NoMemory> {
        if self.sheet.texts().len() != self.form.fields.len() {
            return Err(NoMemory);
        }
        first_fault(alloc, &self.form, &self.sheet, &self.tables)
    }

    fn marks(&self, alloc: Global) -> Result<Vec<bool>, NoMemory> {
        if self.sheet.texts().len() != self.form.fields.len() {
            return Err(NoMemory);
        }
        shown_marks(alloc, &self.form, &self.sheet, &self.tables)
    }

    /// What the expressions of a field are read against.
    fn scope<'a>(&'a self, marks: &'a [bool], own: u64) -> Scope<'a, OneList> {
        Scope {
            form: &self.form,
            texts: self.sheet.texts(),
            marks,
            tables: &self.tables,
            own,
        }
    }

    fn offered(
        &self,
        alloc: Global,
        scope: &Scope<'_, OneList>,
        choices: &Choices,
    ) -> Result<Vec<Text>, NoMemory> {
        match choices {
            Choices::Rows {
                table,
                filter,
                value,
            } => offers(alloc, scope, table, filter, value),
            _ => Ok(Vec::new(alloc)),
        }
    }

    fn offers(
        &self,
        alloc: Global,
        scope: &Scope<'_, OneList>,
        choices: &Choices,
        choice: &str,
    ) -> Result<bool, NoMemory> {
        match choices {
            Choices::Rows {
                table,
                filter,
                value,
            } => { offers_choice(alloc, scope, table, filter, value, choice.as_bytes()) }
            _ => Ok(false),
        }
    }

    /// Answers the question of a path, and tells what was refused.
    fn print_fill(&mut self, alloc: Global, out: &mut String, line: &str) -> Result<(), NoMemory> {
        let (path, value) = cut(line);
        let path = text(alloc, path)?;
        let value = Text::from_string(text_of(alloc, value)?);
        match self.fill(alloc, &path, &value) {
            Ok(()) => out.push_str("taken")?,
            Err(why) => write!(out, "{why:?}")?,
        }
        Ok(())
    }

    fn print_text(&self, out: &mut String, path: &str) -> Result<(), NoMemory> {
        let number = self.number_of(path) as usize;
        if let Some(text) = self.sheet.texts().get(number) {
            push_all(out, &["[", text.as_str(), "]"])?;
        }
        Ok(())
    }

    /// Whether a field is shown, and its text as expressions read it.
    fn print_read(&self, alloc: Global, out: &mut String, path: &str) -> Result<(), NoMemory> {
        let number = self.number_of(path);
        let word = shown_word(self.is_shown(alloc, number)?);
        let text = self.read(alloc, number)?;
        out.push_str(word)?;
        push_all(out, &[" [", text.as_str(), "]"])?;
        Ok(())
    }

    fn print_fault(&self, alloc: Global, out: &mut String) -> Result<(), NoMemory> {
        match self.first_fault(alloc)? {
            Some(fault) => write!(out, "{:?} {}", fault.cause, fault.path.as_str())?,
            None => out.push_str("no fault")?,
        }
        Ok(())
    }

    /// The values that the table of a field's question offers.
    fn print_offers(&self, alloc: Global, out: &mut String, path: &str) -> Result<(), NoMemory> {
        let number = self.number_of(path);
        let Some(field) = self.form.fields.get(number as usize) else {
            return Ok(());
        };
        let marks = self.marks(alloc)?;
        let scope = self.scope(marks.as_slice(), number);
        let values = self.offered(alloc, &scope, &field.choices)?;
        Ok(print_values(out, values.as_slice())?)
    }

    /// Whether the table of a field's question offers a value.
    fn print_offered(&self, alloc: Global, out: &mut String, line: &str) -> Result<(), NoMemory> {
        let (path, choice) = cut(line);
        let number = self.number_of(path);
        let Some(field) = self.form.fields.get(number as usize) else {
            return Ok(());
        };
        let marks = self.marks(alloc)?;
        let scope = self.scope(marks.as_slice(), number);
        let is_offered = self.offers(alloc, &scope, &field.choices, choice)?;
        Ok(print_truth(out, is_offered)?)
    }

    /// Whether the relevance of a field holds, true where it has none.
    fn print_relevance(&self, alloc: Global, out: &mut String, path: &str) -> Result<(), NoMemory> {
        let number = self.number_of(path);
        let Some(field) = self.form.fields.get(number as usize) else {
            return Ok(());
        };
        let Some(relevant) = &field.relevant else {
            out.push_str("true")?;
            return Ok(());
        };
        let marks = self.marks(alloc)?;
        let scope = self.scope(marks.as_slice(), number);
        let is_relevant = is_relevant(alloc, &scope, relevant)?;
        Ok(print_truth(out, is_relevant)?)
    }

    /// A field's text as expressions read it.
    fn print_seen(&self, alloc: Global, out: &mut String, path: &str) -> Result<(), NoMemory> {
        let marks = self.marks(alloc)?;
        let number = self.number_of(path);
        let text = read_text(alloc, self.sheet.texts(), marks.as_slice(), number)?;
        push_all(out, &["[", text.as_str(), "]"])?;
        Ok(())
    }

    /// What a line asks: an answer that is given, a text, a text as it is read, what is offered, what holds, or the
    /// first fault.
    pub fn answer(&mut self, alloc: Global, line: &str) -> Result<String, NoMemory> {
        let mut out = String::new(alloc);
        match line.split_once(' ') {
            Some(("fill", rest)) => self.print_fill(alloc, &mut out, rest)?,
            Some(("text", path)) => self.print_text(&mut out, path)?,
            Some((word, rest)) => self.print_answer(alloc, &mut out, word, rest)?,
            None => self.print_fault(alloc, &mut out)?,
        }
        Ok(out)
    }

    fn print_answer(
        &self,
        alloc: Global,
        out: &mut String,
        word: &str,
        rest: &str,
    ) -> Result<(), NoMemory> {
        match word {
            "offers" => self.print_offers(alloc, out, rest),
            "offered" => self.print_offered(alloc, out, rest),
            "relevant" => self.print_relevance(alloc, out, rest),
            "seen" => self.print_seen(alloc, out, rest),
            _ => self.print_read(alloc, out, rest),
        }
    }
}
