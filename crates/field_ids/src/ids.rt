ghost use Rattle.std.specs.Prelude.{◌≡◌, ℕ, ◌+◌, ◌<◌, ◌≤◌, ◌^◌, IfOk, slice_index};
ghost use Rattle.field_ids.specs.Ids.{id_of, text_of_id};
ghost use Rattle.uuid.specs.Uuid.{version_num};
ghost use Rattle.uuid.specs.Parts.{variant_of};

use field_text::{NoMemory, Text};
use std::alloc::Global;
use std::marker::Model;
use uuid::{Uuid, Variant};

/// The number of a device, and the counter of the next id that it draws.
#[derive(Clone, Copy, Debug, PartialEq, Eq)]
pub struct Draws {
    pub device: u64,
    pub next: u64,
}

impl Model for Draws {
    ghost use Rattle.field_ids.specs.Draws.{IsInRange, NextDraw};

    ghost Value = { NextDraw };

    ghost view = { λ d. record { device = d.device; next = d.next } };

    ghost invariant = { λ d. IsInRange (record { device = d.device; next = d.next }) };

    ghost inverse = { λ draws. record { device = draws.device; next = draws.next } };
}

impl Draws {
    ghost use Rattle.field_ids.specs.Draws.{drawn};

    /// The draws once so many ids were drawn.
    pub fn after(self, count: u64) -> Draws
        requires { self.next + count ≤ 2 ^ 62 }
        ensures { result ≡ drawn self count }
    {
        Draws {
            device: self.device,
            next: self.next + count,
        }
    }
}

/// An id: a UUID, which contracts see as its sixteen bytes.
#[derive(Clone, Copy, Debug, PartialEq, Eq)]
pub struct Id {
    uuid: Uuid,
}

impl Model for Id {
    ghost use Rattle.std.specs.Prelude.{List, ℕ};

    ghost Value = { List ℕ };

    ghost view = { λ i. i.uuid };

    ghost inverse = { λ bytes. record { uuid = bytes } };
}

impl Id {
    /// The id's hexadecimal digits in lower case, with hyphens: 36 characters.
    pub fn text(&self, alloc: Global) -> Result<Text, NoMemory>
        ensures { IfOk result (λ text. text ≡ text_of_id self.now) }
    {
        Ok(Text::from_string(self.uuid.to_string(alloc)?))
    }
}

/// The id of a device and a counter (RFC 9562, section 5.8).
pub fn draw(device: u64, counter: u64) -> Id
    requires device_in_range { device < 2 ^ 48 }
    requires counter_in_range { counter < 2 ^ 62 }
    ensures value { result ≡ id_of device counter }
    ensures version { version_num result ≡ 8 }
    ensures variant { variant_of (slice_index result 8) ≡ Variant.RFC4122 }

    // Other arguments give another id, and another text.
    ensures unique { (d c : ℕ) → d < 2 ^ 48 → c < 2 ^ 62 → result ≡ id_of d c → (d ≡ device) × (c ≡ counter) }
    ensures unique_text { (d c : ℕ) → d < 2 ^ 48 → c < 2 ^ 62 → text_of_id result ≡ text_of_id (id_of d c)
        → (d ≡ device) × (c ≡ counter) }
{
    let high = device * 0x1_0000 + 0x8000;
    let low = 0x8000_0000_0000_0000 + counter;
    Id {
        uuid: Uuid::from_u64_pair(high, low),
    }
}
