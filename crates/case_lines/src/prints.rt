ghost use Rattle.std.specs.Prelude.{ℕ, List, ◌≡◌, ◌++◌, OnOk, string_bytes};
ghost use Rattle.std.specs.List.{flat_map};

use std::alloc::AllocError;

/// A printer, which knows what is printed of a value of the type.
pub trait Prints<T> {
    /// What is printed of a value.
    ghost printed: { T → List ℕ };

    fn print(out: &mut String, value: &T) -> Result<(), AllocError>
        ensures { OnOk result (string_bytes out.new ≡ string_bytes out.old ++ printed value.now) };
}

/// Appends what a printer prints of values, one behind the other.
pub fn print_all<T, P: Prints<T>>(out: &mut String, values: &[T]) -> Result<(), AllocError>
    ensures { OnOk result (string_bytes out.new ≡ string_bytes out.old ++ flat_map P.printed values.now) }
{
    for value in values {
        P::print(out, value)?;
    }
    Ok(())
}
