ghost use Rattle.std.specs.Prelude.{◌≡◌, ◌⊎◌, ℕ, Option, IfOk, IfErr, OnOk, None, Some, length, map};
ghost use Rattle.std.specs.Option.{option_copied};
ghost use Rattle.rosa_doc.specs.declared.tree.Element.{Element};
ghost use Rattle.form_list.specs.declared.refusal.ListRefused.{ListRefused};
ghost use Rattle.form_list.specs.Entries.{bad_hash, first_fault, is_entity_list, listed_fault, listed_of};
ghost use Rattle.form_list.specs.Entries.{media_file_fault, media_file_of, missing, unless_empty};
ghost use Rattle.form_list.specs.Lists.{Gives, Reads, entries, entry_in, form_list, items_of, manifest, refused};

use crate::{Child, ListRefused, Listed, MediaFile};
use field_ids::is_hash;
use field_text::{Items, NoMemory, Text};
use rosa_doc::{DocRefused, Element, Node};
use rosa_nodes::{attribute_of, element_in, text_of_child};
use std::alloc::Global;

/// How many forms a form list may have.
pub const FORM_LIMIT: u64 = 1000;

/// How many media files a manifest may have.
pub const MEDIA_LIMIT: u64 = 100;

// An entry of a form list or of a manifest.
trait Entry: Drop {
    /// What an element reads as.
    ghost item: { Element → Self };

    /// What the entry of a number lacks.
    ghost fault: { ℕ → Self → Option ListRefused };

    fn read(alloc: Global, element: &Element) -> Result<Self, NoMemory>
        ensures { IfOk result (λ x. x ≡ item element.now) };

    fn fault(&self, entry: u64) -> Option<ListRefused>
        ensures { result ≡ fault entry self.now };
}

fn unless_empty(text: Text) -> Option<Text>
    ensures { result ≡ unless_empty text }
{
    if text.bytes().is_empty() {
        None
    } else {
        Some(text)
    }
}

fn missing(entry: u64, child: Child, text: &Text) -> Option<ListRefused>
    ensures { result ≡ missing entry child text.now }
{
    if text.bytes().is_empty() {
        Some(ListRefused::Missing { entry, child })
    } else {
        None
    }
}

fn bad_hash(entry: u64, hash: &Text) -> Option<ListRefused>
    ensures { result ≡ bad_hash entry hash.now }
{
    if is_hash(hash) {
        None
    } else {
        Some(ListRefused::BadHash { entry })
    }
}

impl Entry for Listed {
    ghost item = { listed_of };

    ghost fault = { listed_fault };

    fn read(alloc: Global, element: &Element) -> Result<Listed, NoMemory> {
        let nodes = element.children.as_slice();
        Ok(Listed {
            form_id: text_of_child(alloc, nodes, "formID")?,
            name: text_of_child(alloc, nodes, "name")?,
            version: text_of_child(alloc, nodes, "version")?,
            hash: text_of_child(alloc, nodes, "hash")?,
            download: text_of_child(alloc, nodes, "downloadUrl")?,
            manifest: unless_empty(text_of_child(alloc, nodes, "manifestUrl")?),
        })
    }

    fn fault(&self, entry: u64) -> Option<ListRefused> {
        missing(entry, Child::FormId, &self.form_id)
            .or(missing(entry, Child::Hash, &self.hash))
            .or(missing(entry, Child::DownloadUrl, &self.download))
            .or(bad_hash(entry, &self.hash))
    }
}

fn is_entity_list(element: &Element) -> bool
    ensures { result ≡ is_entity_list element.now }
{
    match attribute_of(element.attributes.as_slice(), "type") {
        Some(kind) => kind.as_str() == "entityList",
        None => false,
    }
}

impl Entry for MediaFile {
    ghost item = { media_file_of };

    ghost fault = { media_file_fault };

    fn read(alloc: Global, element: &Element) -> Result<MediaFile, NoMemory> {
        let nodes = element.children.as_slice();
        Ok(MediaFile {
            filename: text_of_child(alloc, nodes, "filename")?,
            hash: text_of_child(alloc, nodes, "hash")?,
            download: text_of_child(alloc, nodes, "downloadUrl")?,
            entity_list: is_entity_list(element),
        })
    }

    fn fault(&self, entry: u64) -> Option<ListRefused> {
        missing(entry, Child::Filename, &self.filename)
            .or(missing(entry, Child::Hash, &self.hash))
            .or(missing(entry, Child::DownloadUrl, &self.download))
            .or(bad_hash(entry, &self.hash))
    }
}

// The entry of this name that a node is.
fn entry_in<'a>(node: &'a Node, name: &str) -> Option<&'a Element>
    ensures { option_copied result ≡ entry_in name.now node.now }
{
    match element_in(node) {
        Some(element) if element.name.as_str() == name => Some(element),
        _ => None,
    }
}

fn entry_count(nodes: &[Node], name: &str) -> u64
    ensures { result ≡ length (entries name.now nodes.now) }
{
    let mut count = 0;
    let mut rest = nodes;
    while let Some((node, others)) = rest.split_first() {
        if entry_in(node, name).is_some() {
            count += 1;
        }
        rest = others;
    }
    count
}

// The entry, unless it lacks something.
fn whole<E: Entry>(entry: u64, item: E) -> Result<E, ListRefused>
    ensures ok { IfOk result (λ x. (x ≡ item) × (E.fault entry item ≡ None)) }
    ensures err { IfErr result (λ e. E.fault entry item ≡ Some e) }
{
    match item.fault(entry) {
        None => Ok(item),
        Some(fault) => Err(fault),
    }
}

fn read_entries<E: Entry>(
    alloc: Global,
    nodes: &[Node],
    name: &str,
) -> Result<Items<E>, ListRefused>
    ensures ok { IfOk result (λ items. items ≡ map E.item (entries name.now nodes.now)) }
    ensures faultless { OnOk result (first_fault E.fault 1 (map E.item (entries name.now nodes.now)) ≡ None) }
    ensures refused { IfErr result (λ e. (e ≡ ListRefused.NoMemory)
        ⊎ (first_fault E.fault 1 (map E.item (entries name.now nodes.now)) ≡ Some e)) }
{
    let mut items = Items::new(alloc);
    let mut rest = nodes;
    while let Some((node, others)) = rest.split_first() {
        if let Some(element) = entry_in(node, name) {
            let item = whole(items.len() as u64 + 1, E::read(alloc, element)?)?;
            items.push(item)?;
        }
        rest = others;
    }
    Ok(items)
}

// The entries below a root, if there aren't too many.
fn read_items<E: Entry>(
    alloc: Global,
    root: &Element,
    name: &str,
    limit: u64,
) -> Result<Items<E>, ListRefused>
    ensures { Gives result (items_of E.item E.fault limit (entries name.now root.now.children)) }
{
    let nodes = root.children.as_slice();
    let count = entry_count(nodes, name);
    if count > limit {
        return Err(ListRefused::TooMany { count });
    }
    read_entries(alloc, nodes, name)
}

fn form_list(alloc: Global, root: &Element) -> Result<Items<Listed>, ListRefused>
    ensures { Gives result (form_list root.now) }
{
    if root.name.as_str() != "xforms" {
        return Err(ListRefused::WrongRoot);
    }
    read_items(alloc, root, "xform", FORM_LIMIT)
}

fn manifest(alloc: Global, root: &Element) -> Result<Items<MediaFile>, ListRefused>
    ensures { Gives result (manifest root.now) }
{
    if root.name.as_str() != "manifest" {
        return Err(ListRefused::WrongRoot);
    }
    read_items(alloc, root, "mediaFile", MEDIA_LIMIT)
}

fn refused(refusal: DocRefused) -> ListRefused
    ensures { result ≡ refused refusal }
{
    match refusal {
        DocRefused::NoMemory => ListRefused::NoMemory,
        _ => ListRefused::Doc(refusal),
    }
}

/// The forms of a form list, a document with the root `xforms` and an `xform` for each. Namespaces, and elements that
/// aren't asked for, are skipped; texts are without white space at their ends.
pub fn read_list(alloc: Global, bytes: &[u8]) -> Result<Items<Listed>, ListRefused>
    ensures { Reads form_list bytes.now result }
{
    match rosa_doc::read(alloc, bytes) {
        Ok(doc) => form_list(alloc, &doc.root),
        Err(refusal) => Err(refused(refusal)),
    }
}

/// The media files of a manifest, a document with the root `manifest` and a `mediaFile` for each.
pub fn read_manifest(alloc: Global, bytes: &[u8]) -> Result<Items<MediaFile>, ListRefused>
    ensures { Reads manifest bytes.now result }
{
    match rosa_doc::read(alloc, bytes) {
        Ok(doc) => manifest(alloc, &doc.root),
        Err(refusal) => Err(refused(refusal)),
    }
}
