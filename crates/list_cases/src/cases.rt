use std::alloc::{AllocError, Global};

/// The cases of a file: each begins with a line `== NAME`, and the lines behind it are its body.
pub fn cases(alloc: Global, text: &str) -> Result<Vec<(&str, &str)>, AllocError> {
    let mut cases = Vec::new(alloc);
    for piece in text.split("== ") {
        if let Some((name, body)) = piece.split_once('\n') {
            cases.push((name, body))?;
        }
    }
    Ok(cases)
}
