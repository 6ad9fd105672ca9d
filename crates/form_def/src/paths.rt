ghost use Rattle.std.specs.Prelude.{◌≡◌, ◌∷◌, [], MatchOption, IfSome, ◌<◌, length};
ghost use Rattle.form_def.specs.Paths.{parts_of, parent_path as path_above, is_attribute as attribute};
ghost use Rattle.form_def.specs.Paths.{are_names as names, is_path as path_below};

use field_text::xml::is_local_name;

/// What stands before the first slash, and behind it.
fn split_part(path: &str) -> Option<(&str, &str)>
    ensures parts { MatchOption result (parts_of path.now ≡ path.now ∷ [])
        (λ x. parts_of path.now ≡ x.0.now ∷ parts_of x.1.now) }
    ensures shorter { IfSome result (λ x. length x.1.now < length path.now) }
{
    path.split_once('/')
}

fn is_attribute(name: &str) -> bool
    ensures { result ≡ attribute name.now }
{
    match name.strip_prefix('@') {
        Some(name) => is_local_name(name),
        None => false,
    }
}

/// Whether these are names with slashes between them, of which the last may be an attribute's.
fn are_names(path: &str) -> bool
    ensures { result ≡ names (parts_of path.now) }
{
    let mut rest = path;
    while let Some((name, behind)) = split_part(rest) {
        if !is_local_name(name) {
            return false;
        }
        rest = behind;
    }
    is_local_name(rest) || is_attribute(rest)
}

/// Whether this is a path of a field below a root of this name.
pub fn is_path(root: &str, path: &str) -> bool
    ensures { result ≡ path_below root.now path.now }
{
    let Some((before, rest)) = split_part(path) else {
        return false;
    };
    if !before.is_empty() {
        return false;
    }
    let Some((first, names)) = split_part(rest) else {
        return false;
    };
    first == root && are_names(names)
}

/// The path without its last name.
pub fn parent_path(path: &[u8]) -> &[u8]
    ensures { result.now ≡ path_above path.now }
{
    let mut end = path.len();
    while end > 0 {
        end -= 1;
        if path[end] == b'/' {
            return &path[..end];
        }
    }
    &path[..0]
}
