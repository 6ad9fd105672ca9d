ghost use Rattle.std.specs.Prelude.{◌≡◌, IfOk, map};
ghost use Rattle.case_lines.specs.Lines.{is_comment, cases, IsCut};

use std::alloc::{AllocError, Global};

/// Whether a line of a file holds no case.
fn is_comment(line: &str) -> bool
    ensures { result ≡ is_comment line.now }
{
    line.is_empty() || line.as_bytes().starts_with(b"// ")
}

/// The lines of a file that hold cases: all but the empty ones and the comments, which begin with two slashes and a
/// space.
pub fn cases(alloc: Global, text: &str) -> Result<Vec<&str>, AllocError>
    ensures { IfOk result (λ found. map (λ case. case.now) found.items ≡ cases text.now) }
{
    text.lines().filter(|line| !is_comment(line)).collect(alloc)
}

/// What stands before the first bar between spaces, and what stands behind it; all and nothing where there is none.
pub fn cut(line: &str) -> (&str, &str)
    ensures { IsCut line.now result.0.now result.1.now }
{
    match line.split_once(" | ") {
        Some(parts) => parts,
        None => (line, ""),
    }
}
