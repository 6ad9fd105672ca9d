ghost use Rattle.std.specs.Prelude.{◌≡◌, ◌++◌, ℕ, List, length, OnOk};
ghost use Rattle.instance_doc.specs.Markup.{attribute, element, end_tag, escaped, in_utf8, quoted, start_tag};

use field_text::{NoMemory, Text};
use rosa_doc::{write_attr, write_text};

/// Appends a name.
pub fn push_name(name: &str, out: &mut Vec<u8>) -> Result<(), NoMemory>
    ensures { OnOk result (out.new.items ≡ out.old.items ++ in_utf8 name.now) }
{
    Ok(out.extend_from_slice(name.as_bytes())?)
}

/// Appends a start tag without attributes.
pub fn push_start(name: &str, out: &mut Vec<u8>) -> Result<(), NoMemory>
    ensures { OnOk result (out.new.items ≡ out.old.items ++ start_tag name.now) }
{
    out.push(b'<')?;
    push_name(name, out)?;
    Ok(out.push(b'>')?)
}

pub fn push_end(name: &str, out: &mut Vec<u8>) -> Result<(), NoMemory>
    ensures { OnOk result (out.new.items ≡ out.old.items ++ end_tag name.now) }
{
    out.extend_from_slice(b"</")?;
    push_name(name, out)?;
    Ok(out.push(b'>')?)
}

/// Ends the element whose start tag ends at a place: by an end tag, or as one tag where nothing stands behind that
/// place.
pub fn close_element(name: &str, inside: usize, out: &mut Vec<u8>) -> Result<(), NoMemory>
    ensures { (before content : List ℕ) → out.old.items ≡ before ++ (start_tag name.now ++ content)
        → length (before ++ start_tag name.now) ≡ inside
        → OnOk result (out.new.items ≡ before ++ element name.now content) }
{
    if out.len() > inside {
        return push_end(name, out);
    }
    out.pop();
    Ok(out.extend_from_slice(b"/>")?)
}

/// Appends an element that holds a text alone.
pub fn push_text_element(name: &str, text: &Text, out: &mut Vec<u8>) -> Result<(), NoMemory>
    ensures { OnOk result (out.new.items ≡ out.old.items ++ element name.now (escaped text.now)) }
{
    push_start(name, out)?;
    let inside = out.len();
    write_text(text, out)?;
    close_element(name, inside, out)
}

fn push_quoted(value: &Text, out: &mut Vec<u8>) -> Result<(), NoMemory>
    ensures { OnOk result (out.new.items ≡ out.old.items ++ quoted value.now) }
{
    out.extend_from_slice(b"=\"")?;
    write_attr(value, out)?;
    Ok(out.push(b'"')?)
}

/// Appends an attribute, with a space before it.
pub fn push_attribute(name: &str, value: &Text, out: &mut Vec<u8>) -> Result<(), NoMemory>
    ensures { OnOk result (out.new.items ≡ out.old.items ++ attribute name.now value.now) }
{
    out.push(b' ')?;
    push_name(name, out)?;
    push_quoted(value, out)
}
