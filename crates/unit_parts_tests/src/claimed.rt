//! The claims of many units.

use crate::claims::{Parts, claim};
use std::alloc::{AllocError, Global};
use unit_locks::Access::{Read, Write};
use unit_locks::{Claim, Claims, UnitId};

/// How many units the random claims are of.
const UNITS: u16 = 4;

// The next number of a linear congruential generator (Knuth, volume 2, section 3.3.4).
fn next(seed: &mut u32) -> u32 {
    *seed = seed.wrapping_mul(1_664_525).wrapping_add(1_013_904_223);
    *seed >> 16
}

// A random claim of few tables and keys, so that many clash.
fn random(alloc: Global, seed: &mut u32) -> Result<Claim, AllocError> {
    let access = if next(seed) % 3 == 0 { Write } else { Read };
    let table: &[u8] = match next(seed) % 3 {
        0 => b"T",
        1 => b"U",
        _ => b"UU",
    };
    let key = [(next(seed) % 64) as u8];
    if next(seed) % 40 == 0 {
        Claim::new(alloc, access, table, None)
    } else {
        Claim::new(alloc, access, table, Some(&key))
    }
}

// Whether another unit has a claim that clashes, by comparing every pair.
fn has_clash(claims: &Claims, unit: u16, claim: &Claim) -> bool {
    for other in 0..UNITS {
        if other != unit {
            for held in claims.of_unit(UnitId(other)) {
                if claim.clashes_with(held) {
                    return true;
                }
            }
        }
    }
    false
}

// Adds random claims, and says how many claims of how many did not clash as the pairs say.
fn wrong_answers(
    alloc: Global,
    claims: &mut Claims,
    seed: &mut u32,
    count: u32,
) -> Result<u32, AllocError> {
    let mut wrong: u32 = 0;
    for _ in 0..count {
        let unit = (next(seed) % 4) as u16;
        let claim = random(alloc, seed)?;
        if claims.clashes(UnitId(unit), &claim).is_some() != has_clash(claims, unit, &claim) {
            wrong = wrong.saturating_add(1);
        }
        claims.add(UnitId(unit), claim)?;
        if next(seed) % 50 == 0 {
            claims.drop_unit(UnitId(unit));
        }
    }
    Ok(wrong)
}

#[test]
fn clashes_are_those_of_the_pairs(rt: HostRuntime) -> Result<(), AllocError> {
    let mut claims = Claims::new(rt.alloc());
    let mut seed = 1;
    assert_eq!(rt; wrong_answers(rt.alloc(), &mut claims, &mut seed, 500)?, 0);
    Ok(())
}

// Adds claims to a unit.
fn add_all(
    alloc: Global,
    claims: &mut Claims,
    unit: UnitId,
    all: &[Parts],
) -> Result<(), AllocError> {
    for parts in all {
        claims.add(unit, claim(alloc, parts)?)?;
    }
    Ok(())
}

const ADDED: [Parts; 5] = [
    (Write, b"T", Some(b"1")),
    (Read, b"T", None),
    (Write, b"T", Some(b"1")),
    (Write, b"U", Some(b"1")),
    (Read, b"T", None),
];

#[test]
fn a_claim_is_listed_once(rt: HostRuntime) -> Result<(), AllocError> {
    let mut claims = Claims::new(rt.alloc());
    add_all(rt.alloc(), &mut claims, UnitId(3), &ADDED)?;
    assert_eq!(rt; claims.of_unit(UnitId(3)).len(), 3);
    assert_eq!(rt; claims.of_unit(UnitId(2)).len(), 0);
    claims.truncate(UnitId(3), 1);
    assert_eq!(rt; claims.of_unit(UnitId(3)).len(), 1);
    Ok(())
}

#[test]
fn a_dropped_unit_can_claim_again(rt: HostRuntime) -> Result<(), AllocError> {
    let alloc = rt.alloc();
    let mut claims = Claims::new(alloc);
    let other = claim(alloc, &(Write, b"T", None))?;
    for _ in 0..3 {
        assert!(rt; claims.clashes(UnitId(0), &other).is_none());
        add_all(alloc, &mut claims, UnitId(1), &ADDED)?;
        assert_eq!(rt; claims.clashes(UnitId(0), &other), Some(UnitId(1)));
        assert!(rt; claims.clashes(UnitId(1), &other).is_none());
        claims.drop_unit(UnitId(1));
    }
    Ok(())
}
