ghost use Rattle.std.specs.Prelude.{◌≡◌, ◌++◌, [], ◌∷◌, IfOk, OnOk, codes};
ghost use Rattle.std.specs.List.{flat_map};
ghost use Rattle.form_outline.specs.Primary.{path_below, path_of_attribute, initial_of, field_at, parts_of};
ghost use Rattle.form_outline.specs.Primary.{attribute_field, attribute_fields, label_in, entity_fields, entity_part};
ghost use Rattle.form_outline.specs.Primary.{meta_part, meta_parts, is_meta, primary_part, primary_of};

use crate::{EntityPart, PrimaryField, PrimaryPart};
use field_text::{Items, NoMemory, Text};
use rosa_doc::{Attribute, Element, Node};
use rosa_nodes::{attribute, attribute_of, element_in, has_elements, words_of};
use std::alloc::Global;

/// The path of a child.
fn path_below(alloc: Global, parent: &str, name: &str) -> Result<Text, NoMemory>
    ensures { IfOk result (λ path. path ≡ path_below parent.now name.now) }
{
    let mut path = String::from_str(alloc, parent)?;
    path.push_str("/")?;
    path.push_str(name)?;
    Ok(Text::from_string(path))
}

/// The path of an attribute.
fn path_of_attribute(alloc: Global, parent: &str, name: &str) -> Result<Text, NoMemory>
    ensures { IfOk result (λ path. path ≡ path_of_attribute parent.now name.now) }
{
    let mut path = String::from_str(alloc, parent)?;
    path.push_str("/@")?;
    path.push_str(name)?;
    Ok(Text::from_string(path))
}

fn initial_of(alloc: Global, element: &Element) -> Result<Text, NoMemory>
    ensures { IfOk result (λ text. text ≡ initial_of element.now) }
{
    if has_elements(element.children.as_slice()) {
        return Ok(Text::from_string(String::new(alloc)));
    }
    words_of(alloc, element.children.as_slice())
}

/// The field of this path that an element is.
fn field_at(alloc: Global, path: &Text, element: &Element) -> Result<PrimaryField, NoMemory>
    ensures { IfOk result (λ field. field ≡ field_at path.now element.now) }
{
    Ok(PrimaryField {
        path: path.copy(alloc)?,
        initial: initial_of(alloc, element)?,
        is_group: has_elements(element.children.as_slice()),
    })
}

/// Appends the field that an element is, and those below it.
#[cycle(parts)]
fn push_part(
    alloc: Global,
    parent: &str,
    node: &Node,
    parts: &mut Vec<PrimaryPart>,
) -> Result<(), NoMemory>
    ensures { OnOk result (parts.new.items ≡ parts.old.items ++ parts_of parent.now node.now) }
{
    match node {
        Node::Child(element) => {
            let path = path_below(alloc, parent, element.name.as_str())?;
            parts.push(PrimaryPart::Field(field_at(alloc, &path, element)?))?;
            push_parts(alloc, path.as_str(), element.children.as_slice(), parts)
        }
        Node::Words(_) => Ok(()),
    }
}

#[cycle(parts)]
fn push_parts(
    alloc: Global,
    parent: &str,
    nodes: &[Node],
    parts: &mut Vec<PrimaryPart>,
) -> Result<(), NoMemory>
    ensures { OnOk result (parts.new.items ≡ parts.old.items ++ flat_map (parts_of parent.now) nodes.now) }
{
    for node in nodes {
        push_part(alloc, parent, node, parts)?;
    }
    Ok(())
}

/// Appends the field of an attribute, where the entity has it.
fn push_attribute(
    alloc: Global,
    path: &str,
    attributes: &[Attribute],
    name: &str,
    fields: &mut Items<PrimaryField>,
) -> Result<(), NoMemory>
    ensures { OnOk result (fields.new ≡ fields.old ++ attribute_fields path.now attributes.now name.now) }
{
    match attribute_of(attributes, name) {
        Some(value) => Ok(fields.push(PrimaryField {
            path: path_of_attribute(alloc, path, name)?,
            initial: value.copy(alloc)?,
            is_group: false,
        })?),
        None => Ok(()),
    }
}

fn push_label(
    alloc: Global,
    path: &str,
    node: &Node,
    fields: &mut Items<PrimaryField>,
) -> Result<(), NoMemory>
    ensures { OnOk result (fields.new ≡ fields.old ++ label_in path.now node.now) }
{
    let Some(element) = element_in(node) else {
        return Ok(());
    };
    if element.name.as_str() != "label" {
        return Ok(());
    }
    let path = path_below(alloc, path, element.name.as_str())?;
    Ok(fields.push(field_at(alloc, &path, element)?)?)
}

fn push_labels(
    alloc: Global,
    path: &str,
    nodes: &[Node],
    fields: &mut Items<PrimaryField>,
) -> Result<(), NoMemory>
    ensures { OnOk result (fields.new ≡ fields.old ++ flat_map (label_in path.now) nodes.now) }
{
    for node in nodes {
        push_label(alloc, path, node, fields)?;
    }
    Ok(())
}

/// The fields of an entity: its attributes, and then its label.
fn entity_fields(
    alloc: Global,
    path: &str,
    attributes: &[Attribute],
    nodes: &[Node],
) -> Result<Items<PrimaryField>, NoMemory>
    ensures { IfOk result (λ fields. fields ≡ entity_fields path.now attributes.now nodes.now) }
{
    let mut fields = Items::new(alloc);
    push_attribute(alloc, path, attributes, "id", &mut fields)?;
    push_attribute(alloc, path, attributes, "create", &mut fields)?;
    push_attribute(alloc, path, attributes, "update", &mut fields)?;
    push_attribute(alloc, path, attributes, "baseVersion", &mut fields)?;
    push_attribute(alloc, path, attributes, "trunkVersion", &mut fields)?;
    push_attribute(alloc, path, attributes, "branchId", &mut fields)?;
    push_labels(alloc, path, nodes, &mut fields)?;
    Ok(fields)
}

fn entity_part(alloc: Global, path: &str, element: &Element) -> Result<EntityPart, NoMemory>
    ensures { IfOk result (λ entity. entity ≡ entity_part path.now element.now) }
{
    let attributes = element.attributes.as_slice();
    Ok(EntityPart {
        dataset: attribute(alloc, attributes, "dataset")?,
        fields: entity_fields(alloc, path, attributes, element.children.as_slice())?,
    })
}

/// Appends what a child of `meta` is.
fn push_meta_part(
    alloc: Global,
    path: &str,
    element: &Element,
    parts: &mut Vec<PrimaryPart>,
) -> Result<(), NoMemory>
    ensures { OnOk result (parts.new.items ≡ parts.old.items ++ meta_part path.now element.now) }
{
    let path = path_below(alloc, path, element.name.as_str())?;
    if element.name.as_str() == "instanceName" {
        return Ok(parts.push(PrimaryPart::Meta(field_at(alloc, &path, element)?))?);
    }
    if element.name.as_str() == "entity" {
        let entity = entity_part(alloc, path.as_str(), element)?;
        return Ok(parts.push(PrimaryPart::Entity(entity))?);
    }
    Ok(())
}

fn push_meta_parts(
    alloc: Global,
    path: &str,
    nodes: &[Node],
    parts: &mut Vec<PrimaryPart>,
) -> Result<(), NoMemory>
    ensures { OnOk result (parts.new.items ≡ parts.old.items ++ flat_map (meta_parts path.now) nodes.now) }
{
    for node in nodes {
        if let Some(element) = element_in(node) {
            push_meta_part(alloc, path, element, parts)?;
        }
    }
    Ok(())
}

/// Appends what a child of the primary instance's root holds.
fn push_primary_part(
    alloc: Global,
    root: &str,
    node: &Node,
    parts: &mut Vec<PrimaryPart>,
) -> Result<(), NoMemory>
    ensures { OnOk result (parts.new.items ≡ parts.old.items ++ primary_part root.now node.now) }
{
    let Some(element) = element_in(node) else {
        return Ok(());
    };
    if element.name.as_str() != "meta" {
        return push_part(alloc, root, node, parts);
    }
    let path = path_below(alloc, root, element.name.as_str())?;
    push_meta_parts(alloc, path.as_str(), element.children.as_slice(), parts)
}

/// What stands in the primary instance.
pub fn primary_of(alloc: Global, root: &Element) -> Result<Items<PrimaryPart>, NoMemory>
    ensures { IfOk result (λ parts. parts ≡ primary_of root.now) }
{
    let path = path_below(alloc, "", root.name.as_str())?;
    let mut parts = Vec::new(alloc);
    for node in root.children.as_slice() {
        push_primary_part(alloc, path.as_str(), node, &mut parts)?;
    }
    Ok(Items::from_vec(parts))
}
