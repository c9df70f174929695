//! Ways up to the root.

ghost use Rattle.std.specs.Prelude.{◌≡◌, ◌==◌, ℕ, map, slice_index, IfOk};
ghost use Rattle.std.specs.List.{list_all};
ghost use Rattle.tree_rules.specs.FileRules.Climbs.{AreWays, TellsWays};

use std::alloc::{AllocError, Global};

/// Where two steps lead, of places that each lead to one above.
fn doubled(alloc: Global, up: &[usize]) -> Result<Vec<usize>, AllocError>
    requires { AreWays up.now }
    ensures { IfOk result (λ twice. twice.items ≡ map (λ above. slice_index up.now above) up.now) }
{
    up.iter().map(|above| up[*above]).collect(alloc)
}

/// Whether each of them is the first place.
fn are_first(up: &[usize]) -> bool
    ensures { result ≡ list_all (λ place. place == 0) up.now }
{
    up.iter().all(|place| *place == 0)
}

/// Whether each place leads up to the first, of places that each lead to one above. The steps that are looked
/// at double until they are more than there are places.
pub fn leads_up(alloc: Global, above: &[usize]) -> Result<bool, AllocError>
    requires { AreWays above.now }
    ensures { IfOk result (TellsWays above.now) }
{
    let mut up = above.to_vec(alloc)?;
    let mut steps = 1;
    while steps <= above.len() {
        up = doubled(alloc, &up)?;
        steps *= 2;
    }
    Ok(are_first(&up))
}
