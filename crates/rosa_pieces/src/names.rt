ghost use Rattle.std.specs.Prelude.{◌≡◌};
ghost use Rattle.field_text.specs.Xml.{begins_as_name as begins};
ghost use Rattle.rosa_pieces.specs.Reading.{Gives, local_at, name_from, name_at};

use crate::front::{split_name, text_of};
use crate::{Name, Unread};
use field_text::Text;
use field_text::xml::is_name_start;
use std::alloc::Global;

fn begins_as_name(chars: &[char]) -> bool
    ensures { result ≡ begins chars.now }
{
    match chars {
        [first, ..] => is_name_start(*first),
        [] => false,
    }
}

/// The name without a colon at the front.
#[tactic(auto, unfolding(crate::specs::Reading::local_at))]
fn local_at(alloc: Global, chars: &[char]) -> Result<(Text, &[char]), Unread>
    ensures { Gives (λ x. (x.0, x.1.now)) result (local_at chars.now) }
{
    if !begins_as_name(chars) {
        return Err(Unread::Absent);
    }
    let (name, rest) = split_name(chars);
    Ok((text_of(alloc, name)?, rest))
}

/// The name whose first part is given, by what follows that part.
#[tactic(auto, unfolding(crate::specs::Reading::name_from))]
fn name_from(alloc: Global, first: Text, chars: &[char]) -> Result<(Name, &[char]), Unread>
    ensures { Gives (λ x. (x.0, x.1.now)) result (name_from first chars.now) }
{
    match chars {
        [':', rest @ ..] => {
            let (local, rest) = local_at(alloc, rest)?;
            let prefix = Some(first);
            Ok((Name { prefix, local }, rest))
        }
        _ => {
            let prefix = None;
            let local = first;
            Ok((Name { prefix, local }, chars))
        }
    }
}

/// The name at the front.
#[tactic(auto, unfolding(crate::specs::Reading::name_at))]
pub fn name_at(alloc: Global, chars: &[char]) -> Result<(Name, &[char]), Unread>
    ensures { Gives (λ x. (x.0, x.1.now)) result (name_at chars.now) }
{
    let (first, rest) = local_at(alloc, chars)?;
    name_from(alloc, first, rest)
}
