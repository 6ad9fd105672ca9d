ghost use Rattle.std.specs.Prelude.{◌≡◌, ◌<◌, ◌^◌, IfOk};
ghost use Rattle.entity_merge.specs.Branches.{branch_of};

use field_ids::{Draws, draw};
use field_text::{NoMemory, Text};
use std::alloc::Global;

// The branch of the next draw.
pub(crate) fn branch_of(alloc: Global, draws: Draws) -> Result<Text, NoMemory>
    requires { draws.next < 2 ^ 62 }
    ensures { IfOk result (λ branch. branch ≡ branch_of draws) }
{
    draw(draws.device, draws.next).text(alloc)
}
