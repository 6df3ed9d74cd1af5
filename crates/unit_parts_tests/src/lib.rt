//! Tests of what a unit of work is made of: the forms of its rows, its changes and claims, its records, and the XA calls that name it.
#![tactic(auto)]

#[cfg(test)]
mod changes;
#[cfg(test)]
mod claim_pairs;
#[cfg(test)]
mod claimed;
#[cfg(test)]
mod claimed_bytes;
#[cfg(test)]
mod claims;
#[cfg(test)]
mod faults;
#[cfg(test)]
mod record_bodies;
#[cfg(test)]
mod row_forms;
#[cfg(test)]
mod steps;
#[cfg(test)]
mod xa_numbers;
#[cfg(test)]
mod xa_requests;
#[cfg(test)]
mod xids;
