//! What is read of descriptors and rows of parameters.

use fdoca::{Descriptor, DescriptorFault, read_row};
use row_values::Value;
use std::alloc::Global;
use test_rows::push_shown;

/// Appends what is read of a row of these parameters, or the fault.
pub fn push_read(alloc: Global, out: &mut Vec<u8>, descriptor: &[u8], row: &[u8]) -> Option<()> {
    match Descriptor::parse(alloc, descriptor) {
        Err(fault) => push_fault(out, fault),
        Ok(described) => match read_row(alloc, &described, row) {
            Err(fault) => push_fault(out, fault),
            Ok(values) => push_values(alloc, out, values.as_slice()),
        },
    }
}

fn push_fault(out: &mut Vec<u8>, fault: DescriptorFault) -> Option<()> {
    let name = match fault {
        DescriptorFault::Malformed => "malformed",
        DescriptorFault::TooManyFields => "too many fields",
        DescriptorFault::NoMemory => "no memory",
    };
    out.extend_from_slice(name.as_bytes()).ok()
}

fn push_values(alloc: Global, out: &mut Vec<u8>, values: &[Value<'_>]) -> Option<()> {
    out.extend_from_slice(b"read").ok()?;
    for value in values {
        push_value(alloc, out, *value)?;
    }
    Some(())
}

fn push_value(alloc: Global, out: &mut Vec<u8>, value: Value<'_>) -> Option<()> {
    let text = match value {
        Value::Null => String::from_str(alloc, " NULL"),
        Value::Number(number) => format!(in alloc; " {number}"),
        Value::Text(text) => format!(in alloc; " '{text}'"),
        Value::Bytes(bytes) => {
            out.extend_from_slice(b" x").ok()?;
            return push_shown(alloc, out, bytes);
        }
    };
    out.extend_from_slice(text.ok()?.as_bytes()).ok()
}
