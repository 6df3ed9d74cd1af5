//! Records as they are written down.

fn push_bytes(bytes: &[u8], told: &mut String) -> Option<()> {
    for byte in bytes {
        write!(told, "{byte:02X}").ok()?;
    }
    Some(())
}

// A record's bytes in front, and the others: six bytes, of which the last four count those behind them.
fn split_record(bytes: &[u8]) -> Option<(&[u8], &[u8])> {
    let [_, _, a, b, c, d, ..] = bytes else {
        return None;
    };
    let size = u32::from_be_bytes([*a, *b, *c, *d]) as usize;
    let whole = size.wrapping_add(6);
    if whole <= bytes.len() {
        Some(bytes.split_at(whole))
    } else {
        None
    }
}

// A line for a record that came so often in a row: its kind and its conversation, and what it brings.
fn tell_record(record: &[u8], count: usize, told: &mut String) -> Option<()> {
    match count {
        0 => return Some(()),
        1 => told.push_str("  ").ok()?,
        _ => write!(told, "  {count} times ").ok()?,
    }
    push_bytes(record.get(..2)?, told)?;
    told.push_str(" ").ok()?;
    push_bytes(record.get(6..)?, told)?;
    told.push_str("\n").ok()
}

/// Tells each record in a line. One that comes several times in a row has one line. What is no whole record stands by itself at the end.
pub fn tell_records(records: &[u8], told: &mut String) -> Option<()> {
    let mut left = records;
    let mut last: &[u8] = &[];
    let mut count = 0_usize;
    for _ in 0..records.len() {
        let Some((record, others)) = split_record(left) else {
            break;
        };
        left = others;
        if record != last {
            tell_record(last, count, told)?;
            last = record;
            count = 0;
        }
        count = count.wrapping_add(1);
    }
    tell_record(last, count, told)?;
    if left.is_empty() {
        return Some(());
    }
    told.push_str("  a part ").ok()?;
    push_bytes(left, told)?;
    told.push_str("\n").ok()
}
