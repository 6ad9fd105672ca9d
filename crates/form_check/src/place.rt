// Where a byte of a document stands, as an editor counts.
ghost use Rattle.std.specs.Prelude.{◌≡◌, ◌+◌, ◌<◌, ◌^◌, take};
ghost use Rattle.form_check.specs.Places.{begins_character, is_line_feed, moved, place_behind, start};

/// The number of a line, and of a character in it, both from 1.
#[derive(Clone, Copy, Debug, PartialEq, Eq)]
pub struct Place {
    pub line: u64,
    pub column: u64,
}

fn is_line_feed(byte: u8) -> bool
    ensures { result ≡ is_line_feed byte }
{
    byte == b'\n'
}

fn begins_character(byte: u8) -> bool
    ensures { result ≡ begins_character byte }
{
    byte < 0x80 || byte >= 0xC0
}

// The place behind one more byte.
fn moved(place: Place, byte: u8) -> Place
    requires line { place.line + 1 < 2 ^ 64 }
    requires column { place.column + 1 < 2 ^ 64 }
    ensures { result ≡ moved place byte }
{
    if is_line_feed(byte) {
        return Place {
            line: place.line + 1,
            column: 1,
        };
    }
    if begins_character(byte) {
        return Place {
            column: place.column + 1,
            ..place
        };
    }
    place
}

// The place behind these bytes.
fn place_behind(bytes: &[u8]) -> Place
    ensures { result ≡ place_behind bytes.now }
{
    let mut place = Place { line: 1, column: 1 };
    for byte in bytes {
        place = moved(place, *byte);
    }
    place
}

/// The place of a byte of the document, or that behind its end.
pub fn place_at(document: &[u8], at: u64) -> Place
    ensures { result ≡ place_behind (take at document.now) }
{
    let front = (at as usize).min(document.len());
    place_behind(&document[..front])
}
