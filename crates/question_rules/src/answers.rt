ghost use Rattle.std.specs.Prelude.{◌≡◌, ◌&&◌, not, IfOk, IfErr, OnOk, OnErr, length, chars, position, slice_set};
ghost use Rattle.std.specs.List.{list_any};
ghost use Rattle.std.specs.Str.{bytes_eq};
ghost use Rattle.field_text.specs.Steps.{Gives};
ghost use Rattle.expr_values.specs.Functions.{cut_at_spaces, is_some_text, is_piece};
ghost use Rattle.expr_values.specs.Evaluation.{is_offered as among};
ghost use Rattle.question_rules.specs.Answers.{is_question as asks, offered as values_of, are_chosen as chosen};
ghost use Rattle.question_rules.specs.Answers.{is_no_number as no_number, is_no_choice as no_choice, bad_char_from};
ghost use Rattle.question_rules.specs.Answers.{bad_text as refused_text, refusal as first_refusal, Fills, Refuses};
ghost use Rattle.question_rules.specs.Answered.{question as question_of, refusal_at as refusal_of, answered, fault_of};
ghost use Rattle.question_rules.specs.Along.{settled};

use crate::marks::{holds_or, marks_along};
use crate::settling::{put_text, settled_texts};
use crate::sheet::{Sheet, copy_texts};
use expr_values::{Scope, is_selected, is_whole, offers_choice, split_piece};
use field_text::xml::is_xml_char;
use field_text::{NoMemory, Tables, Text};
use form_def::{Choices, Field, FormDef, Kind, is_marked};
use std::alloc::Global;

/// The most bytes that an answer has.
const LONGEST: usize = 2_000;

/// The most digits of a whole number that is an answer.
const DIGITS: usize = 9;

/// Why an answer isn't taken.
#[derive(Clone, Copy, Debug, PartialEq, Eq)]
pub enum AnswerRefused {
    /// No field with a control has the path.
    NoQuestion,
    NotRelevant,
    ReadOnly,
    /// It isn't perhaps a minus sign and one to nine digits.
    NotWhole,
    /// It isn't offered; of several choices, one is empty, comes twice or isn't offered.
    NotAChoice,
    /// It has more than 2,000 bytes.
    TooLong,
    /// A document can't hold the character at this byte.
    BadChar { at: u64 },
    NoMemory,
}

impl From<field_text::NoMemory> for AnswerRefused {
    ghost use Rattle.question_rules.specs.declared.answers.AnswerRefused.TheVariants.{NoMemory};

    ghost from_gives = { λ _ refused. refused ≡ NoMemory };

    fn from(_: field_text::NoMemory) -> AnswerRefused {
        AnswerRefused::NoMemory
    }
}

/// Whether a field of this kind has a control.
fn is_question(kind: Kind) -> bool
    ensures { result ≡ asks kind }
{
    matches!(kind, Kind::Words | Kind::Whole | Kind::One | Kind::Many)
}

fn find_field(fields: &[Field], path: &Text) -> Option<usize>
    ensures { result ≡ position (λ field. bytes_eq field.path path.now) fields.now }
{
    fields
        .iter()
        .position(|field| field.path.bytes() == path.bytes())
}

/// The number of the field with a control that has the path.
fn question(form: &FormDef, path: &Text) -> Option<usize>
    ensures { result ≡ question_of form.now.fields path.now }
{
    let Some(number) = find_field(form.fields.as_slice(), path) else {
        return None;
    };
    let Some(field) = form.fields.get(number) else {
        return None;
    };
    if is_question(field.kind) {
        Some(number)
    } else {
        None
    }
}

/// Whether a select offers the choice.
fn is_offered<T: Tables>(
    alloc: Global,
    scope: &Scope<'_, T>,
    choices: &Choices,
    choice: &[u8],
) -> Result<bool, NoMemory>
    ensures { IfOk result (λ offered. offered ≡ among (values_of scope.now.form.now (T.tables scope.now.tables.now)
        scope.now.texts.now scope.now.marks.now scope.now.own choices.now) choice.now) }
{
    match choices {
        Choices::Nothing => Ok(false),
        Choices::Fixed(values) => Ok(
            values
                .as_slice()
                .iter()
                .any(|value| value.bytes() == choice),
        ),
        Choices::Rows {
            table,
            filter,
            value,
        } => offers_choice(alloc, scope, table, filter, value, choice),
    }
}

/// Whether a piece is offered and doesn't come again behind it.
fn is_chosen<T: Tables>(
    alloc: Global,
    scope: &Scope<'_, T>,
    choices: &Choices,
    piece: &[u8],
    behind: &[u8],
) -> Result<bool, NoMemory>
    ensures { IfOk result (λ is. is ≡ (is_some_text piece.now && among (values_of scope.now.form.now
        (T.tables scope.now.tables.now) scope.now.texts.now scope.now.marks.now scope.now.own choices.now) piece.now
        && not (list_any (is_piece piece.now) (cut_at_spaces behind.now)))) }
{
    if piece.is_empty() || is_selected(behind, piece) {
        return Ok(false);
    }
    is_offered(alloc, scope, choices, piece)
}

/// Whether each piece of a text is offered, and none comes twice.
fn are_chosen<T: Tables>(
    alloc: Global,
    scope: &Scope<'_, T>,
    choices: &Choices,
    text: &[u8],
) -> Result<bool, NoMemory>
    ensures { IfOk result (λ are. are ≡ chosen (values_of scope.now.form.now (T.tables scope.now.tables.now)
        scope.now.texts.now scope.now.marks.now scope.now.own choices.now) (cut_at_spaces text.now)) }
{
    let mut rest = text;
    while let Some((piece, behind)) = split_piece(rest) {
        if !is_chosen(alloc, scope, choices, piece, behind)? {
            return Ok(false);
        }
        rest = behind;
    }
    if rest.is_empty() {
        return Ok(false);
    }
    is_offered(alloc, scope, choices, rest)
}

/// Whether the kind asks for a number, and the text is none.
fn is_no_number(kind: Kind, text: &[u8]) -> bool
    ensures { result ≡ no_number kind text.now }
{
    match kind {
        Kind::Whole => !text.is_empty() && !is_whole(DIGITS, text),
        _ => false,
    }
}

/// Whether the kind asks for a choice, and the text is none.
fn is_no_choice<T: Tables>(
    alloc: Global,
    scope: &Scope<'_, T>,
    field: &Field,
    text: &[u8],
) -> Result<bool, NoMemory>
    ensures { IfOk result (λ none. none ≡ no_choice field.now.kind (values_of scope.now.form.now
        (T.tables scope.now.tables.now) scope.now.texts.now scope.now.marks.now scope.now.own field.now.choices)
        text.now) }
{
    if text.is_empty() {
        return Ok(false);
    }
    match field.kind {
        Kind::One => Ok(!is_offered(alloc, scope, &field.choices, text)?),
        Kind::Many => Ok(!are_chosen(alloc, scope, &field.choices, text)?),
        _ => Ok(false),
    }
}

/// Where the first character stands that a document can't hold.
fn bad_char_in(chars: &[char]) -> Option<u64>
    ensures { result ≡ bad_char_from 0 chars.now }
{
    let mut at: u64 = 0;
    let mut rest = chars;
    while let Some((c, others)) = rest.split_first() {
        if !is_xml_char(*c) {
            return Some(at);
        }
        at += c.len_utf8() as u64;
        rest = others;
    }
    None
}

fn characters(alloc: Global, text: &str) -> Result<Vec<char>, NoMemory>
    ensures { IfOk result (λ characters. characters.items ≡ chars text.now) }
{
    Ok(text.chars().collect(alloc)?)
}

/// What is wrong with a text, whatever the field.
fn bad_text(alloc: Global, text: &Text) -> Result<Option<AnswerRefused>, NoMemory>
    ensures { IfOk result (λ why. why ≡ refused_text text.now) }
{
    if text.bytes().len() > LONGEST {
        return Ok(Some(AnswerRefused::TooLong));
    }
    let characters = characters(alloc, text.as_str())?;
    match bad_char_in(characters.as_slice()) {
        Some(at) => Ok(Some(AnswerRefused::BadChar { at })),
        None => Ok(None),
    }
}

/// What is refused first, if the text is the answer to the scope's field.
fn refusal<T: Tables>(
    alloc: Global,
    scope: &Scope<'_, T>,
    field: &Field,
    text: &Text,
) -> Result<Option<AnswerRefused>, NoMemory>
    ensures { IfOk result (λ why. why ≡ first_refusal scope.now.form.now (T.tables scope.now.tables.now)
        scope.now.texts.now scope.now.marks.now scope.now.own field.now text.now) }
{
    if !is_marked(scope.marks, scope.own) {
        return Ok(Some(AnswerRefused::NotRelevant));
    }
    if holds_or(alloc, scope, false, &field.readonly)? {
        return Ok(Some(AnswerRefused::ReadOnly));
    }
    if is_no_number(field.kind, text.bytes()) {
        return Ok(Some(AnswerRefused::NotWhole));
    }
    if is_no_choice(alloc, scope, field, text.bytes())? {
        return Ok(Some(AnswerRefused::NotAChoice));
    }
    bad_text(alloc, text)
}

/// What is refused first, if the text is the answer to the field of a number.
#[tactic(auto, unfolding(crate::specs::Answered::refusal_at))]
fn refusal_at<T: Tables>(
    alloc: Global,
    form: &FormDef,
    texts: &[Text],
    tables: &T,
    number: usize,
    text: &Text,
) -> Result<Option<AnswerRefused>, NoMemory>
    ensures { IfOk result (λ why. why ≡ refusal_of form.now (T.tables tables.now) texts.now number text.now) }
{
    let Some(field) = form.fields.get(number) else {
        return Ok(None);
    };
    let marks = marks_along(alloc, form, tables, texts)?;
    let scope = Scope {
        form,
        texts,
        marks: marks.as_slice(),
        tables,
        own: number as u64,
    };
    refusal(alloc, &scope, field, text)
}

/// The texts once a field has this one, settled.
fn filled_texts<T: Tables>(
    alloc: Global,
    form: &FormDef,
    texts: &[Text],
    tables: &T,
    number: usize,
    text: &Text,
) -> Result<Vec<Text>, NoMemory>
    ensures { IfOk result (λ after. after.items
        ≡ (settled form.now (T.tables tables.now) (slice_set texts.now number text.now)).texts) }
{
    let mut after = copy_texts(alloc, texts)?;
    put_text(&mut after, number as u64, text.copy(alloc)?);
    settled_texts(alloc, form, tables, after)
}

/// The settled texts once the question of a path has this answer.
fn answer<T: Tables>(
    alloc: Global,
    form: &FormDef,
    texts: &[Text],
    tables: &T,
    path: &Text,
    value: &Text,
) -> Result<Vec<Text>, AnswerRefused>
    ensures { Gives fault_of (λ after. after.items) result
        (answered form.now (T.tables tables.now) texts.now path.now value.now) }
{
    let Some(number) = question(form, path) else {
        return Err(AnswerRefused::NoQuestion);
    };
    if let Some(why) = refusal_at(alloc, form, texts, tables, number, value)? {
        return Err(why);
    }
    Ok(filled_texts(alloc, form, texts, tables, number, value)?)
}

/// Stores an answer to the question of a path and settles the sheet.
pub fn fill<T: Tables>(
    alloc: Global,
    form: &FormDef,
    sheet: &mut Sheet,
    tables: &T,
    path: &Text,
    value: &Text,
) -> Result<(), AnswerRefused>
    requires { length sheet.old ≡ length form.now.fields }
    ensures answered { Gives fault_of (λ _. sheet.new) result
        (answered form.now (T.tables tables.now) sheet.old path.now value.now) }
    ensures filled { OnOk result (Fills form.now (T.tables tables.now) sheet.old path.now value.now sheet.new) }
    ensures refused { IfErr result (λ why. Refuses form.now (T.tables tables.now) sheet.old path.now value.now why) }
    ensures unchanged { OnErr result (sheet.new ≡ sheet.old) }
{
    let texts = answer(alloc, form, sheet.texts(), tables, path, value)?;
    *sheet = Sheet::from_texts(texts);
    Ok(())
}
