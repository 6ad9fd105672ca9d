use field_text::{Items, Text};
use form_def::Cell;

/// A field of the primary instance, as the document has it.
#[derive(Debug, Drop)]
pub struct PrimaryField {
    pub path: Text,
    /// The text of an element without child elements, or an attribute's value.
    pub initial: Text,
    pub is_group: bool,
}

/// The entity in the `meta` of the primary instance (ODK Entities).
#[derive(Debug, Drop)]
pub struct EntityPart {
    pub dataset: Option<Text>,
    /// Its attributes and its label, as far as it has them.
    pub fields: Items<PrimaryField>,
}

/// What stands in the primary instance, in document order.
#[derive(Debug, Drop)]
pub enum PrimaryPart {
    Field(PrimaryField),
    /// A field inside `meta`.
    Meta(PrimaryField),
    Entity(EntityPart),
}

/// A bind, by the texts of its attributes.
#[derive(Debug, Drop)]
pub struct Bind {
    /// Empty where there is none.
    pub nodeset: Text,
    /// The attribute `type`.
    pub data_type: Option<Text>,
    pub relevant: Option<Text>,
    pub constraint: Option<Text>,
    pub required: Option<Text>,
    pub readonly: Option<Text>,
    pub calculate: Option<Text>,
    pub saveto: Option<Text>,
}

/// What a secondary instance holds.
#[derive(Debug, Drop)]
pub enum TableContent {
    /// The cells of each `root/item`, where the instance has child elements.
    Rows(Items<Items<Cell>>),
    /// The attribute `src`.
    Source(Text),
    Nothing,
}

/// A secondary instance with an `id`.
#[derive(Debug, Drop)]
pub struct Table {
    pub id: Text,
    pub content: TableContent,
}

/// A `setvalue`, by the texts of its attributes.
#[derive(Debug, Drop)]
pub struct SetValue {
    /// The attribute `ref`.
    pub target: Option<Text>,
    pub event: Option<Text>,
    pub value: Option<Text>,
}

/// A child element of the model, in document order.
#[derive(Debug, Drop)]
pub enum ModelPart {
    /// The first `instance`, which holds the primary one.
    Primary,
    Bind(Bind),
    Table(Table),
    /// A `submission` with its attribute `auto-send`.
    Submission(Option<Text>),
    SetValue(SetValue),
    /// An element of this name, which no model holds.
    Other(Text),
}

/// An `itemset` of a select.
#[derive(Debug, Drop)]
pub struct ItemsetPart {
    /// Empty where there is none.
    pub nodeset: Text,
    /// The attribute `ref` of its first `value`.
    pub value: Option<Text>,
}

/// A child element of a control, in document order; labels and hints are left out.
#[derive(Debug, Drop)]
pub enum ControlPart {
    /// An `item` with the text of its first `value`.
    Item(Option<Text>),
    Itemset(ItemsetPart),
    /// An element of this name.
    Other(Text),
}

/// An element of the body that is no group, label or hint.
#[derive(Debug, Drop)]
pub struct Control {
    pub name: Text,
    /// The attribute `ref`, empty where there is none.
    pub target: Text,
    pub parts: Items<ControlPart>,
}

/// What a document says of a form.
#[derive(Debug, Drop)]
pub struct Outline {
    /// The local name of the primary instance's root.
    pub root: Text,
    /// Empty where there is none.
    pub id: Text,
    /// Empty where there is none.
    pub version: Text,
    pub primary: Items<PrimaryPart>,
    pub model: Items<ModelPart>,
    /// Those inside groups too, in document order.
    pub controls: Items<Control>,
    /// Whether the body stands before the head.
    pub body_first: bool,
}
