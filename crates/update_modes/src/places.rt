ghost use Rattle.std.specs.Prelude.{◌≡◌, Bool, IfOk};
ghost use Rattle.update_modes.specs.Places.{places};

use field_text::{Items, NoMemory};
use std::alloc::Global;

/// A test of elements.
pub trait Test<T> {
    ghost test: { Self → T → Bool };

    fn passes(&self, element: &T) -> bool
        ensures { result ≡ test self.now element.now };
}

/// The places of the elements that pass.
pub fn places<T, P: Test<T>>(
    alloc: Global,
    test: &P,
    elements: &[T],
) -> Result<Items<u64>, NoMemory>
    ensures { IfOk result (λ found. found ≡ places (P.test test.now) elements.now) }
{
    let mut found = Items::new(alloc);
    let mut place = 0;
    let mut rest = elements;
    while let Some((element, others)) = rest.split_first() {
        if test.passes(element) {
            found.push(place)?;
        }
        place += 1;
        rest = others;
    }
    Ok(found)
}
