//! Hashes of what claims claim.

ghost use Rattle.std.specs.Prelude.{◌≡◌, ◌<◌, ◌%◌, ◌^◌};
ghost use Rattle.unit_locks.specs.Index.{bucket as bucket_of, claim_hash, hash_on, mixed, table_hash as hash_of_table};

use crate::claim::Claim;

/// What a hash is multiplied with before the next byte: the golden ratio of 32 bits, an odd number
/// (Knuth, The Art of Computer Programming, volume 3, section 6.4).
const FACTOR: u32 = 2_654_435_761;

/// How many buckets there are at most.
const BUCKETS: u32 = 65_536;

fn mix(hash: u32, byte: u8) -> u32
    ensures { result ≡ mixed hash byte }
{
    hash.wrapping_mul(FACTOR).wrapping_add(u32::from(byte))
}

#[tactic(auto, unfolding(crate::specs::Index::hash_on))]
fn hash_from(hash: u32, bytes: &[u8]) -> u32
    ensures { result ≡ hash_on hash bytes.now }
{
    bytes.iter().fold(hash, |hash, byte| mix(hash, *byte))
}

/// The hash of the name of a claim's table.
pub(crate) fn table_hash(claim: &Claim) -> u32
    ensures { result ≡ hash_of_table claim.now.table }
{
    hash_from(0, claim.table())
}

/// The hash of a claim of all of the table whose name has this hash.
pub(crate) fn whole_hash(table: u32) -> u32
    ensures { result ≡ mixed table 0 }
{
    mix(table, 0)
}

/// The hash of what a claim claims.
pub(crate) fn scope_hash(claim: &Claim) -> u32
    ensures { result ≡ claim_hash claim.now }
{
    let table = table_hash(claim);
    match claim.key() {
        None => whole_hash(table),
        Some(key) => hash_from(mix(table, 1), key),
    }
}

/// The bucket of a hash.
pub(crate) fn bucket(hash: u32) -> usize
    ensures is { result ≡ bucket_of hash }
    ensures small { result < 2 ^ 16 }
{
    (hash % BUCKETS) as usize
}
