ghost use Rattle.std.specs.Prelude.{◌≡◌, ◌++◌, ◌∷◌, IfOk, option_map};
ghost use Rattle.std.specs.Option.{option_copied};
ghost use Rattle.form_read.specs.Paths.{past_step, climbed, is_absolute, path_from, leaf_of, has_at_sign};
ghost use Rattle.form_read.specs.Paths.{readable_of, field_read};

use field_text::NoMemory;
use form_def::parent_path;
use form_outline::PrimaryField;
use std::alloc::Global;

/// The path of these names below a path.
fn below(alloc: Global, path: &[u8], names: &[u8]) -> Result<Vec<u8>, NoMemory>
    ensures { IfOk result (λ v. v.items ≡ path.now ++ 47 ∷ names.now) }
{
    let mut whole = Vec::from_slice(alloc, path)?;
    whole.push(b'/')?;
    whole.extend_from_slice(names)?;
    Ok(whole)
}

/// What follows a step `../` at the front.
fn past_step(path: &[u8]) -> Option<&[u8]>
    ensures { option_copied result ≡ past_step path.now }
{
    match path {
        [a, b, c, steps @ ..] => {
            if *a == b'.' && *b == b'.' && *c == b'/' {
                return Some(steps);
            }
            None
        }
        _ => None,
    }
}

/// The path that steps and names lead to.
fn climbed(alloc: Global, own: &[u8], path: &[u8]) -> Result<Option<Vec<u8>>, NoMemory>
    ensures { IfOk result (λ found. option_map (λ v. v.items) found ≡ climbed own.now path.now) }
{
    let mut at = own;
    let mut rest = path;
    while let Some(after) = past_step(rest) {
        if at.is_empty() {
            return Ok(None);
        }
        at = parent_path(at);
        rest = after;
    }
    Ok(Some(below(alloc, at, rest)?))
}

fn is_absolute(path: &[u8]) -> bool
    ensures { result ≡ is_absolute path.now }
{
    path.starts_with(b"/")
}

fn path_from(alloc: Global, own: &[u8], path: &[u8]) -> Result<Option<Vec<u8>>, NoMemory>
    ensures { IfOk result (λ found. option_map (λ v. v.items) found ≡ path_from own.now path.now) }
{
    if is_absolute(path) {
        return Ok(Some(Vec::from_slice(alloc, path)?));
    }
    climbed(alloc, own, path)
}

/// The number of the leaf field of a path.
pub fn leaf_of(slots: &[PrimaryField], path: &[u8]) -> Option<usize>
    ensures { result ≡ leaf_of slots.now path.now }
{
    slots
        .iter()
        .position(|slot| slot.path.bytes() == path && !slot.is_group)
}

fn has_at_sign(path: &[u8]) -> bool
    ensures { result ≡ has_at_sign path.now }
{
    path.iter().any(|byte| *byte == b'@')
}

fn readable_of(slots: &[PrimaryField], path: &[u8]) -> Option<usize>
    ensures { result ≡ readable_of slots.now path.now }
{
    if has_at_sign(path) {
        return None;
    }
    leaf_of(slots, path)
}

/// The number of the field that a path reads, in an expression of the field of the path `own`.
pub fn field_read(
    alloc: Global,
    slots: &[PrimaryField],
    own: &[u8],
    path: &[u8],
) -> Result<Option<usize>, NoMemory>
    ensures { IfOk result (λ number. number ≡ field_read slots.now own.now path.now) }
{
    match path_from(alloc, own, path)? {
        Some(path) => Ok(readable_of(slots, path.as_slice())),
        None => Ok(None),
    }
}
