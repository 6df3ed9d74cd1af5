//! What statements claim.

ghost use Rattle.std.specs.Prelude.{◌≡◌, ◌≤◌, ◌<◌, ◌^◌, ◌∷◌, [], IfOk, List, None, length, map, option_map};
ghost use Rattle.row_values.specs.Value.{Value};
ghost use Rattle.sql_text.specs.declared.tree.Command.{Command as SqlCommand};
ghost use Rattle.tables.specs.Tables.{Store};
ghost use Rattle.sql_semantics.specs.Frame.{claims_in};
ghost use Rattle.sql_semantics.specs.Scope as meant;
ghost use Rattle.small_sql.specs.Bound.{IsBound, IsOver};
ghost use Rattle.small_sql.specs.Scope.{scope_of};
ghost use Rattle.unit_locks.specs.Claim.{key_or_empty};
ghost use Rattle.unit_locks.specs.declared.access.Access.TheVariants.{Write};

use crate::bound::Bound;
use crate::scope::Scope;
use crate::subject::subject;
use sql_text::Command;
use std::alloc::{AllocError, Global};
use unit_locks::{Access, Claim};

/// The name that a claim of the names of all tables has.
const ALL_NAMES: &'static [u8] = b"*";

// One claim, of a table or of a key of it.
fn one_claim(
    alloc: Global,
    access: Access,
    table: &str,
    key: Option<&[u8]>,
) -> Result<Vec<Claim>, AllocError>
    requires name { length table.now < 2 ^ 8 }
    requires key { length (key_or_empty (option_map (λ k. k.now) key)) ≤ 8012 }
    ensures { IfOk result (λ claims. claims.items ≡ meant.claim access table.now (option_map (λ k. k.now) key.entry) ∷ []) }
{
    let mut claims = Vec::new(alloc);
    claims.push(Claim::new(alloc, access, table.as_bytes(), key)?)?;
    Ok(claims)
}

// What a CREATE TABLE claims: to write all of the table, and the names of all tables.
fn names_claimed(alloc: Global, table: &str) -> Result<Vec<Claim>, AllocError>
    requires { length table.now < 2 ^ 8 }
    ensures { IfOk result (λ claims. claims.items ≡ meant.claim Write table.now None ∷ meant.claim Write meant.star None ∷ []) }
{
    let mut claims = one_claim(alloc, Access::Write, table, None)?;
    claims.push(Claim::new(alloc, Access::Write, ALL_NAMES, None)?)?;
    Ok(claims)
}

// What is claimed of a table of this name.
fn scope_claimed(
    alloc: Global,
    access: Access,
    table: &str,
    scope: &Scope,
) -> Result<Vec<Claim>, AllocError>
    requires { length table.now < 2 ^ 8 }
    ensures { IfOk result (λ claims. claims.items ≡ meant.scope_claims access table.now (scope_of scope.now)) }
{
    match scope {
        Scope::Names => names_claimed(alloc, table),
        Scope::All => one_claim(alloc, access, table, None),
        Scope::One(key) => one_claim(alloc, access, table, Some(key.bytes.as_slice())),
    }
}

/// What a bound statement claims. A CREATE TABLE claims to write all of the table, and the names of all
/// tables, which the name `*` stands for. Any other statement claims to read all of a table that is not
/// there. Of one that is there it claims the row of the key that its WHERE fixes or that it gives, else
/// all of the table: a SELECT to read it, the others to write it.
pub fn claims(alloc: Global, bound: &Bound<'_, '_>) -> Result<Vec<Claim>, AllocError>
    ensures { IfOk result (λ claims. (params : List Value) (c : SqlCommand) (s : Store) → IsBound params c bound.now → IsOver bound.now s → claims.items ≡ claims_in params c s) }
{
    scope_claimed(alloc, bound.access, bound.table.as_str(), &bound.scope)
}

/// What a statement claims whose table is not there.
#[tactic(auto, unfolding(sql_semantics::specs::Scope::claims, sql_semantics::specs::Scope::scope))]
pub fn absent_claims(alloc: Global, command: &Command<'_>) -> Result<Vec<Claim>, AllocError>
    ensures { IfOk result (λ claims. (params : List Value) → claims.items ≡ meant.claims params command.now None) }
{
    let table = subject(alloc, command)?;
    match command {
        Command::Create { .. } => names_claimed(alloc, table.as_str()),
        Command::Insert { .. }
        | Command::Update { .. }
        | Command::Delete { .. }
        | Command::Select { .. } => one_claim(alloc, Access::Read, table.as_str(), None),
    }
}
