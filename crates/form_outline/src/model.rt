ghost use Rattle.std.specs.Prelude.{◌≡◌, ◌++◌, [], ◌∷◌, IfOk, OnOk, codes};
ghost use Rattle.std.specs.List.{flat_map};
ghost use Rattle.form_outline.specs.Models.{bind_of, cell_of, cells_in, row_in, rows_in, source_of, content_of};
ghost use Rattle.form_outline.specs.Models.{table_part, setvalue_of, is_instance, model_part, first_or_part};
ghost use Rattle.form_outline.specs.Models.{parts_behind, model_of};

use crate::{Bind, ModelPart, SetValue, Table, TableContent};
use field_text::{Items, NoMemory};
use form_def::Cell;
use rosa_doc::{Attribute, Element, Node};
use rosa_nodes::{attribute, attribute_of, attribute_or_empty, element_in, has_elements, words_of};
use std::alloc::Global;

fn bind_of(alloc: Global, attributes: &[Attribute]) -> Result<Bind, NoMemory>
    ensures { IfOk result (λ bind. bind ≡ bind_of attributes.now) }
{
    Ok(Bind {
        nodeset: attribute_or_empty(alloc, attributes, "nodeset")?,
        data_type: attribute(alloc, attributes, "type")?,
        relevant: attribute(alloc, attributes, "relevant")?,
        constraint: attribute(alloc, attributes, "constraint")?,
        required: attribute(alloc, attributes, "required")?,
        readonly: attribute(alloc, attributes, "readonly")?,
        calculate: attribute(alloc, attributes, "calculate")?,
        saveto: attribute(alloc, attributes, "saveto")?,
    })
}

/// Appends the cell that an element is, if it has no child elements.
fn push_cell(alloc: Global, element: &Element, cells: &mut Items<Cell>) -> Result<(), NoMemory>
    ensures { OnOk result (cells.new ≡ cells.old ++ cell_of element.now) }
{
    if has_elements(element.children.as_slice()) {
        return Ok(());
    }
    Ok(cells.push(Cell {
        column: element.name.copy(alloc)?,
        value: words_of(alloc, element.children.as_slice())?,
    })?)
}

fn row_of(alloc: Global, nodes: &[Node]) -> Result<Items<Cell>, NoMemory>
    ensures { IfOk result (λ cells. cells ≡ flat_map cells_in nodes.now) }
{
    let mut cells = Items::new(alloc);
    for node in nodes {
        if let Some(element) = element_in(node) {
            push_cell(alloc, element, &mut cells)?;
        }
    }
    Ok(cells)
}

/// Appends the row that a node is, if it is an `item`.
fn push_row(alloc: Global, node: &Node, rows: &mut Items<Items<Cell>>) -> Result<(), NoMemory>
    ensures { OnOk result (rows.new ≡ rows.old ++ row_in node.now) }
{
    let Some(element) = element_in(node) else {
        return Ok(());
    };
    if element.name.as_str() != "item" {
        return Ok(());
    }
    Ok(rows.push(row_of(alloc, element.children.as_slice())?)?)
}

fn push_rows(alloc: Global, nodes: &[Node], rows: &mut Items<Items<Cell>>) -> Result<(), NoMemory>
    ensures { OnOk result (rows.new ≡ rows.old ++ flat_map row_in nodes.now) }
{
    for node in nodes {
        push_row(alloc, node, rows)?;
    }
    Ok(())
}

/// Appends the rows in a node, if it is a `root`.
fn push_rows_in(alloc: Global, node: &Node, rows: &mut Items<Items<Cell>>) -> Result<(), NoMemory>
    ensures { OnOk result (rows.new ≡ rows.old ++ rows_in node.now) }
{
    let Some(element) = element_in(node) else {
        return Ok(());
    };
    if element.name.as_str() != "root" {
        return Ok(());
    }
    push_rows(alloc, element.children.as_slice(), rows)
}

fn rows_of(alloc: Global, nodes: &[Node]) -> Result<Items<Items<Cell>>, NoMemory>
    ensures { IfOk result (λ rows. rows ≡ flat_map rows_in nodes.now) }
{
    let mut rows = Items::new(alloc);
    for node in nodes {
        push_rows_in(alloc, node, &mut rows)?;
    }
    Ok(rows)
}

fn source_of(alloc: Global, attributes: &[Attribute]) -> Result<TableContent, NoMemory>
    ensures { IfOk result (λ content. content ≡ source_of attributes.now) }
{
    match attribute_of(attributes, "src") {
        Some(source) => Ok(TableContent::Source(source.copy(alloc)?)),
        None => Ok(TableContent::Nothing),
    }
}

fn content_of(alloc: Global, element: &Element) -> Result<TableContent, NoMemory>
    ensures { IfOk result (λ content. content ≡ content_of element.now) }
{
    if has_elements(element.children.as_slice()) {
        return Ok(TableContent::Rows(rows_of(alloc, element.children.as_slice())?));
    }
    source_of(alloc, element.attributes.as_slice())
}

/// Appends the secondary instance that an element is, if it has an `id`.
fn push_table(
    alloc: Global,
    element: &Element,
    parts: &mut Items<ModelPart>,
) -> Result<(), NoMemory>
    ensures { OnOk result (parts.new ≡ parts.old ++ table_part element.now) }
{
    match attribute_of(element.attributes.as_slice(), "id") {
        Some(id) => Ok(parts.push(ModelPart::Table(Table {
            id: id.copy(alloc)?,
            content: content_of(alloc, element)?,
        }))?),
        None => Ok(()),
    }
}

fn setvalue_of(alloc: Global, attributes: &[Attribute]) -> Result<SetValue, NoMemory>
    ensures { IfOk result (λ setvalue. setvalue ≡ setvalue_of attributes.now) }
{
    Ok(SetValue {
        target: attribute(alloc, attributes, "ref")?,
        event: attribute(alloc, attributes, "event")?,
        value: attribute(alloc, attributes, "value")?,
    })
}

fn is_instance(element: &Element) -> bool
    ensures { result ≡ is_instance element.now }
{
    element.name.as_str() == "instance"
}

/// Appends what a child of the model is.
fn push_part(alloc: Global, element: &Element, parts: &mut Items<ModelPart>) -> Result<(), NoMemory>
    ensures { OnOk result (parts.new ≡ parts.old ++ model_part element.now) }
{
    let name = element.name.as_str();
    let attributes = element.attributes.as_slice();
    if is_instance(element) {
        return push_table(alloc, element, parts);
    }
    if name == "bind" {
        return Ok(parts.push(ModelPart::Bind(bind_of(alloc, attributes)?))?);
    }
    if name == "submission" {
        let auto_send = attribute(alloc, attributes, "auto-send")?;
        return Ok(parts.push(ModelPart::Submission(auto_send))?);
    }
    if name == "setvalue" {
        return Ok(parts.push(ModelPart::SetValue(setvalue_of(alloc, attributes)?))?);
    }
    if name == "itext" {
        return Ok(());
    }
    Ok(parts.push(ModelPart::Other(element.name.copy(alloc)?))?)
}

fn push_first_or_part(
    alloc: Global,
    has_primary: bool,
    element: &Element,
    parts: &mut Items<ModelPart>,
) -> Result<(), NoMemory>
    ensures { OnOk result (parts.new ≡ parts.old ++ first_or_part has_primary element.now) }
{
    if is_instance(element) && !has_primary {
        return Ok(parts.push(ModelPart::Primary)?);
    }
    push_part(alloc, element, parts)
}

/// The children of a model.
pub fn model_of(alloc: Global, nodes: &[Node]) -> Result<Items<ModelPart>, NoMemory>
    ensures { IfOk result (λ parts. parts ≡ model_of nodes.now) }
{
    let mut parts = Items::new(alloc);
    let mut has_primary = false;
    let mut rest = nodes;
    while let Some((node, others)) = rest.split_first() {
        if let Some(element) = element_in(node) {
            push_first_or_part(alloc, has_primary, element, &mut parts)?;
            has_primary = has_primary || is_instance(element);
        }
        rest = others;
    }
    Ok(parts)
}
