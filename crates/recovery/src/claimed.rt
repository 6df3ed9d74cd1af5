//! Whether a unit that creates a table has claimed all names.

ghost use Rattle.std.specs.Prelude.{◌≡◌, ◌∷◌, [], map, not};
ghost use Rattle.std.specs.List.{list_any};
ghost use Rattle.tables.specs.ChangeView.{change_of};
ghost use Rattle.unit_locks.specs.Claims.{has};
ghost use Rattle.recovery.specs.Durable.{creates_none, is_claimed, names_claim};

use tables::{Action, Change};
use unit_locks::Claim;

/// The bytes of the claim to write all names: of all of the table `*`.
const NAMES_CLAIM: [u8; 4] = [1, 1, b'*', 0];

/// Whether no table is created, or the claim to write all names is among the claims.
pub(crate) fn is_claimed(changes: &[Change], claims: &[Claim]) -> bool
    ensures { result ≡ is_claimed (map change_of changes.now) claims.now }
{
    !creates_any(changes) || claims_names(claims)
}

// Whether a table is created.
fn creates_any(changes: &[Change]) -> bool
    ensures { result ≡ list_any (λ change. not (creates_none (change_of change ∷ []))) changes.now }
{
    changes.iter().any(|change| creates(change))
}

fn creates(change: &Change) -> bool
    ensures { result ≡ not (creates_none (change_of change.now ∷ [])) }
{
    match &change.action {
        Action::CreateTable { .. } => true,
        Action::Put { .. } => false,
        Action::Remove { .. } => false,
    }
}

// Whether all names are claimed.
fn claims_names(claims: &[Claim]) -> bool
    ensures { result ≡ has claims.now names_claim }
{
    claims
        .iter()
        .any(|claim| NAMES_CLAIM.as_slice() == claim.to_bytes())
}
