ghost use Rattle.std.specs.Prelude.{◌≡◌, IfOk, length, Err};
ghost use Rattle.std.specs.List.{list_any};
ghost use Rattle.field_text.specs.Xml.{is_xml_space as space};
ghost use Rattle.rosa_pieces.specs.Pieces.{begins, have_different_names as different, same_name as same};
ghost use Rattle.rosa_pieces.specs.Reading.{Gives, past, cuts, pair_at, attribute_at, close_at, tag_at, tag_piece_at};
ghost use Rattle.rosa_pieces.specs.Reading.{end_at};
ghost use Rattle.rosa_pieces.specs.declared.unread.Unread.TheVariants.{Absent};

use crate::front::{past_one, past_spaces};
use crate::names::name_at;
use crate::values::value_at;
use crate::{Attribute, Name, Piece, Tag, Unread};
use field_text::Items;
use field_text::xml::is_xml_space;
use std::alloc::Global;

fn begins_with_space(chars: &[char]) -> bool
    ensures { result ≡ begins space chars.now }
{
    match chars {
        [c, ..] => is_xml_space(*c),
        [] => false,
    }
}

/// The name, `=` and value at the front.
#[tactic(auto, unfolding(crate::specs::Reading::pair_at))]
fn pair_at(alloc: Global, chars: &[char]) -> Result<(Attribute, &[char]), Unread>
    ensures { Gives (λ x. (x.0, x.1.now)) result (pair_at chars.now) }
{
    let (name, rest) = name_at(alloc, chars)?;
    let rest = past_one('=', past_spaces(rest))?;
    let (value, rest) = value_at(alloc, past_spaces(rest))?;
    Ok((Attribute { name, value }, rest))
}

/// The attribute at the front, with the white space before it.
#[tactic(auto, unfolding(crate::specs::Reading::attribute_at))]
fn attribute_at(alloc: Global, chars: &[char]) -> Result<(Attribute, &[char]), Unread>
    ensures { Gives (λ x. (x.0, x.1.now)) result (attribute_at chars.now) }
{
    if !begins_with_space(chars) {
        return Err(Unread::Absent);
    }
    pair_at(alloc, past_spaces(chars))
}

/// The attributes at the front, and what follows them.
fn attributes_at(alloc: Global, chars: &[char]) -> Result<(Items<Attribute>, &[char]), Unread>
    ensures attributes { IfOk result (λ x. x.0 ≡ (cuts attribute_at (length chars.now) chars.now).0) }
    ensures rest { IfOk result (λ x. x.1.now ≡ (cuts attribute_at (length chars.now) chars.now).1) }
    ensures memory { result ≡ Err Absent → ⊥ }
{
    let mut attributes = Items::new(alloc);
    let mut rest = chars;
    loop {
        match attribute_at(alloc, rest) {
            Ok((attribute, after)) => {
                attributes.push(attribute)?;
                rest = after;
            }
            Err(Unread::Absent) => return Ok((attributes, rest)),
            Err(Unread::NoMemory) => return Err(Unread::NoMemory),
        }
    }
}

/// What closes a tag, at the front: whether it closes the element too, and what follows.
#[tactic(auto, unfolding(crate::specs::Reading::close_at))]
fn close_at(chars: &[char]) -> Result<(bool, &[char]), Unread>
    ensures { Gives (λ x. (x.0, x.1.now)) result (close_at chars.now) }
{
    match chars {
        ['>', rest @ ..] => Ok((false, rest)),
        ['/', rest @ ..] => Ok((true, past_one('>', rest)?)),
        _ => Err(Unread::Absent),
    }
}

/// Whether no two attributes have one name.
fn have_different_names(attributes: &[Attribute]) -> bool
    ensures { result ≡ different attributes.now }
{
    let mut rest = attributes;
    while let [first, others @ ..] = rest {
        if has_name(others, &first.name) {
            return false;
        }
        rest = others;
    }
    true
}

fn has_name(attributes: &[Attribute], name: &Name) -> bool
    ensures { result ≡ list_any (λ b. same name.now b.name) attributes.now }
{
    attributes.iter().any(|a| name.same(&a.name))
}

/// The start tag or empty-element tag at the front, behind its `<`, and whether it is the latter.
#[tactic(auto, unfolding(crate::specs::Reading::tag_at))]
fn tag_at(alloc: Global, chars: &[char]) -> Result<((bool, Tag), &[char]), Unread>
    ensures { Gives (λ x. (x.0, x.1.now)) result (tag_at chars.now) }
{
    let (name, rest) = name_at(alloc, chars)?;
    let (attributes, rest) = attributes_at(alloc, rest)?;
    let (closes, rest) = close_at(past_spaces(rest))?;
    if !have_different_names(attributes.as_slice()) {
        return Err(Unread::Absent);
    }
    Ok(((closes, Tag { name, attributes }), rest))
}

/// The start tag or empty-element tag at the front, behind its `<`, as a piece.
#[tactic(auto, unfolding(crate::specs::Reading::tag_piece_at))]
pub fn tag_piece_at(alloc: Global, chars: &[char]) -> Result<(Piece, &[char]), Unread>
    ensures { Gives (λ x. (x.0, x.1.now)) result (tag_piece_at chars.now) }
{
    let ((closes, tag), rest) = tag_at(alloc, chars)?;
    let piece = if closes {
        Piece::Empty(tag)
    } else {
        Piece::Start(tag)
    };
    Ok((piece, rest))
}

/// The end tag at the front, behind its `</`.
#[tactic(auto, unfolding(crate::specs::Reading::end_at))]
pub fn end_at(alloc: Global, chars: &[char]) -> Result<(Piece, &[char]), Unread>
    ensures { Gives (λ x. (x.0, x.1.now)) result (end_at chars.now) }
{
    let (name, rest) = name_at(alloc, chars)?;
    let rest = past_one('>', past_spaces(rest))?;
    Ok((Piece::End(name), rest))
}
