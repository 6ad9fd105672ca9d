ghost use Rattle.std.specs.Prelude.{◌≡◌, length, true};
ghost use Rattle.form_def.specs.Paths.{is_name};
ghost use Rattle.form_def.specs.Fields.{have_paths, PathsDiffer, parents_of, are_within};
ghost use Rattle.form_def.specs.Order.{is_order};
ghost use Rattle.std.proofs.Props.{props};

use crate::field::{EntityDef, Field, InnerTable, OuterTable};
use crate::fields::{are_within, have_paths, parents_of, paths_differ};
use crate::order::is_order;
use crate::parts::{FormFault, FormParts};
use field_text::xml::is_local_name;
use field_text::{Items, Text};
use std::alloc::Global;

/// A form (ODK XForms in a profile). Its fields go by number, in document order from 0.
#[derive(Debug, Drop)]
pub struct FormDef {
    pub id: Text,
    pub version: Text,
    /// The local name of the primary instance's root.
    pub root: Text,
    pub fields: Items<Field>,
    pub inner: Items<InnerTable>,
    pub outer: Items<OuterTable>,
    pub entity: Option<EntityDef>,
    /// What the form says of sending by itself, if it says anything.
    pub auto_send: Option<bool>,
    /// The number of each field's parent, none where that is no field.
    pub parents: Items<Option<u64>>,
    /// The numbers of all fields, each once, each behind those that its field depends on.
    pub order: Items<u64>,
    pub ghost root_named: { is_name root ≡ true },
    pub ghost paths_named: { have_paths root fields ≡ true },
    pub ghost paths_differ: { PathsDiffer fields },
    pub ghost numbers_within: { are_within (length fields) 0 fields ≡ true },
    pub ghost parents_known: { parents ≡ parents_of fields } by { Prim.hlevel props },
    pub ghost ordered: { is_order fields order ≡ true },
}

impl FormDef {
    ghost use Rattle.std.specs.Prelude.{IfOk, IfErr};
    ghost use Rattle.form_def.specs.Forms.{Refuses};
    ghost use Rattle.form_def.specs.FormDefs.{parts_of_form};

    /// The form of these parts.
    pub fn new(alloc: Global, parts: FormParts) -> Result<FormDef, FormFault>
        ensures form { IfOk result (λ form. parts_of_form form ≡ parts) }
        ensures refused { IfErr result (λ fault. Refuses parts fault) }
    {
        if !is_local_name(parts.root.as_str()) {
            return Err(FormFault::BadRoot);
        }
        let fields = parts.fields.as_slice();
        if !have_paths(parts.root.as_str(), fields) {
            return Err(FormFault::BadPath);
        }
        if !paths_differ(fields) {
            return Err(FormFault::SamePath);
        }
        if !are_within(alloc, fields)? {
            return Err(FormFault::OutOfRange);
        }
        if !is_order(alloc, fields, parts.order.as_slice())? {
            return Err(FormFault::BadOrder);
        }
        let parents = parents_of(alloc, fields)?;
        let FormParts {
            id,
            version,
            root,
            fields,
            inner,
            outer,
            entity,
            auto_send,
            order,
        } = parts;
        Ok(FormDef {
            id,
            version,
            root,
            fields,
            inner,
            outer,
            entity,
            auto_send,
            parents,
            order,
        })
    }
}
