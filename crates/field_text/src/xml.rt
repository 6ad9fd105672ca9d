ghost use Rattle.std.specs.Prelude.{◌≡◌};
ghost use Rattle.std.specs.List.{list_all};
ghost use Rattle.std.specs.Str.{chars};
ghost use Rattle.field_text.specs.Xml.{is_xml_char as xml_char, is_xml_space as xml_space};
ghost use Rattle.field_text.specs.Xml.{is_name_start as starts_name, is_name_char as goes_on_name};
ghost use Rattle.field_text.specs.Xml.{begins_as_name as begins, is_local_name as local_name, xml_char_of as char_of};

/// Whether an XML 1.0 document may hold the character (section 2.2).
pub fn is_xml_char(c: char) -> bool
    ensures { result ≡ xml_char c }
{
    matches!(c, '\t' | '\n' | '\r' | '\u{20}'..='\u{D7FF}' | '\u{E000}'..='\u{FFFD}' | '\u{10000}'..='\u{10FFFF}')
}

/// Whether the character is white space: a space, a tab, a line feed or a carriage return.
pub fn is_xml_space(c: char) -> bool
    ensures { result ≡ xml_space c }
{
    matches!(c, ' ' | '\t' | '\n' | '\r')
}

/// Whether a name may begin with the character: an ASCII letter, `_`, or one past ASCII.
pub fn is_name_start(c: char) -> bool
    ensures { result ≡ starts_name c }
{
    c.is_ascii_alphabetic() || c == '_' || (!c.is_ascii() && is_xml_char(c))
}

/// Whether a name may go on with the character: one that may begin it, a digit, `.` or `-`.
pub fn is_name_char(c: char) -> bool
    ensures { result ≡ goes_on_name c }
{
    is_name_start(c) || c.is_ascii_digit() || c == '.' || c == '-'
}

/// Whether the text begins with a character that may begin a name.
fn begins_as_name(text: &str) -> bool
    ensures { result ≡ begins (chars text.now) }
{
    match text.chars().next() {
        Some(first) => is_name_start(first),
        None => false,
    }
}

fn all_name_chars(text: &str) -> bool
    ensures { result ≡ list_all goes_on_name (chars text.now) }
{
    text.chars().all(|c| is_name_char(c))
}

/// Whether the text is a name without a colon.
pub fn is_local_name(text: &str) -> bool
    ensures { result ≡ local_name (chars text.now) }
{
    begins_as_name(text) && all_name_chars(text)
}

/// The character, or U+FFFD in the place of one that a document may not hold.
pub fn xml_char_of(c: char) -> char
    ensures { result ≡ char_of c }
{
    if is_xml_char(c) { c } else { '\u{FFFD}' }
}
