// What is known of a build that has nothing to do: how many items it keeps.
ghost use Rattle.std.specs.Prelude.{◌≡◌, IfSome, None, Some, if◌then◌else◌};
ghost use Rattle.site_session.specs.Settled.{items_of};

use crate::build::Rebuilt;
use site_base::Memory;

/// How many items the next build keeps, where this one did all that it planned.
pub(crate) fn reused_after(rebuilt: &Result<Rebuilt, Memory>) -> Option<u32>
    ensures { IfSome result (λ reused. items_of rebuilt.now ≡ Some reused) }
{
    match rebuilt {
        Ok(rebuilt) => match rebuilt {
            Rebuilt::Built(report) => report.rendered.checked_add(report.reused),
            Rebuilt::Fault(_) => None,
            Rebuilt::Marked(_) => None,
            Rebuilt::Unlisted => None,
        },
        Err(Memory) => None,
    }
}

/// It stays known where all is as it was.
pub(crate) fn known_still(known: Option<u32>, is_same: bool) -> Option<u32>
    ensures { result ≡ (if is_same then known else None) }
{
    if is_same { known } else { None }
}
