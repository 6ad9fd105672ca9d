ghost use Rattle.std.specs.Prelude.{◌≡◌, [], ◌∷◌, ◌<◌, length, IfSome, IfNone, MatchOption};
ghost use Rattle.collect_text.specs.Lines.{lines_of, without_return};

use memchr::memchr;

/// The first line of a script without its line feed, and what is behind it; none where nothing is left.
pub fn next_line(script: &[u8]) -> Option<(&[u8], &[u8])>
    ensures lines { MatchOption result (script.now ≡ []) (λ cut. lines_of script.now ≡ cut.0.now ∷ lines_of cut.1.now) }
    ensures shorter { IfSome result (λ cut. length cut.1.now < length script.now) }
{
    if script.is_empty() {
        return None;
    }
    match memchr(b'\n', script) {
        Some(end) => Some((&script[..end], &script[end + 1..])),
        None => Some((script, &[])),
    }
}

/// A line without the carriage return at its end.
pub fn without_return(line: &[u8]) -> &[u8]
    ensures { result.now ≡ without_return line.now }
{
    let Some((last, front)) = line.split_last() else {
        return line;
    };
    if *last == b'\r' { front } else { line }
}
