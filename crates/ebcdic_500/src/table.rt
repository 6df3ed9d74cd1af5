//! The table, and what a single byte or character is.

ghost use Rattle.std.specs.Prelude.{◌≡◌, ◌↔◌, ◌<◌, ℕ, Some};
ghost use Rattle.ebcdic_500.specs.CodePage.{byte_for, char_for};

/// Stands where a byte is no character of the table.
const NONE: char = '\0';

/// Stands where a character has no byte.
const NO_BYTE: u8 = 0;

/// The character of each byte.
#[rattlefmt::skip]
static CHARACTERS: [char; 256] = [
    NONE, NONE, NONE, NONE, NONE, NONE, NONE, NONE, NONE, NONE, NONE, NONE, NONE, NONE, NONE, NONE,
    NONE, NONE, NONE, NONE, NONE, NONE, NONE, NONE, NONE, NONE, NONE, NONE, NONE, NONE, NONE, NONE,
    NONE, NONE, NONE, NONE, NONE, NONE, NONE, NONE, NONE, NONE, NONE, NONE, NONE, NONE, NONE, NONE,
    NONE, NONE, NONE, NONE, NONE, NONE, NONE, NONE, NONE, NONE, NONE, NONE, NONE, NONE, NONE, NONE,
    ' ', NONE, NONE, NONE, NONE, NONE, NONE, NONE, NONE, NONE, '[', '.', '<', '(', '+', '!',
    '&', NONE, NONE, NONE, NONE, NONE, NONE, NONE, NONE, NONE, ']', '$', '*', ')', ';', '^',
    '-', '/', NONE, NONE, NONE, NONE, NONE, NONE, NONE, NONE, NONE, ',', '%', '_', '>', '?',
    NONE, NONE, NONE, NONE, NONE, NONE, NONE, NONE, NONE, '`', ':', '#', '@', '\'', '=', '"',
    NONE, 'a', 'b', 'c', 'd', 'e', 'f', 'g', 'h', 'i', NONE, NONE, NONE, NONE, NONE, NONE,
    NONE, 'j', 'k', 'l', 'm', 'n', 'o', 'p', 'q', 'r', NONE, NONE, NONE, NONE, NONE, NONE,
    NONE, '~', 's', 't', 'u', 'v', 'w', 'x', 'y', 'z', NONE, NONE, NONE, NONE, NONE, NONE,
    NONE, NONE, NONE, NONE, NONE, NONE, NONE, NONE, NONE, NONE, NONE, '|', NONE, NONE, NONE, NONE,
    '{', 'A', 'B', 'C', 'D', 'E', 'F', 'G', 'H', 'I', NONE, NONE, NONE, NONE, NONE, NONE,
    '}', 'J', 'K', 'L', 'M', 'N', 'O', 'P', 'Q', 'R', NONE, NONE, NONE, NONE, NONE, NONE,
    '\\', NONE, 'S', 'T', 'U', 'V', 'W', 'X', 'Y', 'Z', NONE, NONE, NONE, NONE, NONE, NONE,
    '0', '1', '2', '3', '4', '5', '6', '7', '8', '9', NONE, NONE, NONE, NONE, NONE, NONE,
];

/// The byte of each character of ASCII.
#[rattlefmt::skip]
static BYTES: [u8; 128] = [
    0x00, 0x00, 0x00, 0x00, 0x00, 0x00, 0x00, 0x00, 0x00, 0x00, 0x00, 0x00, 0x00, 0x00, 0x00, 0x00,
    0x00, 0x00, 0x00, 0x00, 0x00, 0x00, 0x00, 0x00, 0x00, 0x00, 0x00, 0x00, 0x00, 0x00, 0x00, 0x00,
    0x40, 0x4F, 0x7F, 0x7B, 0x5B, 0x6C, 0x50, 0x7D, 0x4D, 0x5D, 0x5C, 0x4E, 0x6B, 0x60, 0x4B, 0x61,
    0xF0, 0xF1, 0xF2, 0xF3, 0xF4, 0xF5, 0xF6, 0xF7, 0xF8, 0xF9, 0x7A, 0x5E, 0x4C, 0x7E, 0x6E, 0x6F,
    0x7C, 0xC1, 0xC2, 0xC3, 0xC4, 0xC5, 0xC6, 0xC7, 0xC8, 0xC9, 0xD1, 0xD2, 0xD3, 0xD4, 0xD5, 0xD6,
    0xD7, 0xD8, 0xD9, 0xE2, 0xE3, 0xE4, 0xE5, 0xE6, 0xE7, 0xE8, 0xE9, 0x4A, 0xE0, 0x5A, 0x5F, 0x6D,
    0x79, 0x81, 0x82, 0x83, 0x84, 0x85, 0x86, 0x87, 0x88, 0x89, 0x91, 0x92, 0x93, 0x94, 0x95, 0x96,
    0x97, 0x98, 0x99, 0xA2, 0xA3, 0xA4, 0xA5, 0xA6, 0xA7, 0xA8, 0xA9, 0xC0, 0xBB, 0xD0, 0xA1, 0x00,
];

/// The character that a byte of code page 500 stands for, where it stands for one.
pub fn char_of(byte: u8) -> Option<char>
    ensures { result ≡ char_for byte }
{
    let character = CHARACTERS[byte as usize];
    if character == NONE {
        None
    } else {
        Some(character)
    }
}

/// The byte of code page 500 that stands for a character, where there is one.
pub fn byte_of(character: char) -> Option<u8>
    ensures { result ≡ byte_for character }
{
    let code = character as u32;
    if code >= 128 {
        return None;
    }
    let byte = BYTES[code as usize];
    if byte == NO_BYTE { None } else { Some(byte) }
}

/// The table is one to one: a byte stands for a character exactly where the character is written
/// as that byte.
pub fn is_one_to_one()
    ensures { (b c : ℕ) → b < 256 → (char_for b ≡ Some c) ↔ (byte_for c ≡ Some b) }
{}
