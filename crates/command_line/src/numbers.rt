//! Numbers in words.

ghost use Rattle.std.specs.Prelude.{◌≡◌};
ghost use Rattle.command_line.specs.Number as spec;

/// The unsigned decimal number of 64 bits that a text is, without a sign.
pub(crate) fn number_in(text: &str) -> Option<u64>
    ensures { result ≡ spec.number_in text.now }
{
    match text.strip_prefix('+') {
        Some(_) => None,
        None => match text.parse::<u64>() {
            Ok(number) => Some(number),
            Err(_) => None,
        },
    }
}

/// The port that a text is.
pub(crate) fn port_in(text: &str) -> Option<u16>
    ensures { result ≡ spec.port_in text.now }
{
    match number_in(text) {
        Some(number) if number < 65_536 => Some(number as u16),
        Some(_) | None => None,
    }
}

/// The seconds that a text is.
pub(crate) fn seconds_in(text: &str) -> Option<u32>
    ensures { result ≡ spec.seconds_in text.now }
{
    match number_in(text) {
        Some(number) if 0 < number && number < 4_294_968 => Some(number as u32),
        Some(_) | None => None,
    }
}
