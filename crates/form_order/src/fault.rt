ghost use Rattle.std.specs.Prelude.{◌≡◌};

/// Why fields have no order.
#[derive(Clone, Copy, Debug, PartialEq, Eq)]
pub enum OrderFault {
    /// Of the fields that depend on themselves, the first in document order.
    Cycle { field: u64 },
    NoMemory,
}

impl From<field_text::NoMemory> for OrderFault {
    ghost use Rattle.form_order.specs.declared.fault.OrderFault.TheVariants.{NoMemory};

    ghost from_gives = { λ _ fault. fault ≡ NoMemory };

    fn from(_: field_text::NoMemory) -> OrderFault {
        OrderFault::NoMemory
    }
}
