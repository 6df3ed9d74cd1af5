//! The texts of SQLSTT and SQLATTR.

ghost use Rattle.std.specs.Prelude.{◌≡◌, option_copied};
ghost use Rattle.std.specs.Option.{option_map};
ghost use Rattle.drda_commands.specs.Texts.{sized_text, text_at, texts_in, text_in};
ghost use Rattle.drda_commands.specs.Views.{texts_of};

/// The two texts of an SQLSTT or SQLATTR, where they are present (DRDA V5 volume 1, SQLSTTGRP).
#[derive(Clone, Copy)]
pub(crate) struct Texts<'a> {
    mixed: Option<&'a [u8]>,
    single: Option<&'a [u8]>,
}

#[tactic(auto, unfolding(crate::specs::Texts::sized_text))]
fn sized_text(bytes: &[u8]) -> Option<(Option<&[u8]>, &[u8])>
    ensures { option_map (λ x. (option_copied x.0, x.1.now)) result ≡ sized_text bytes.now }
{
    let [a, b, c, d, rest @ ..] = bytes else {
        return None;
    };
    let size = u32::from_be_bytes([*a, *b, *c, *d]) as usize;
    if rest.len() < size {
        return None;
    }
    let (text, rest) = rest.split_at(size);
    Some((Some(text), rest))
}

#[tactic(auto, unfolding(crate::specs::Texts::text_at))]
fn text_at(bytes: &[u8]) -> Option<(Option<&[u8]>, &[u8])>
    ensures { option_map (λ x. (option_copied x.0, x.1.now)) result ≡ text_at bytes.now }
{
    let [indicator, rest @ ..] = bytes else {
        return None;
    };
    if *indicator == 0xFF {
        return Some((None, rest));
    }
    if *indicator == 0x00 {
        return sized_text(rest);
    }
    None
}

/// The two texts that bytes are: each FF, or 00, a length of four bytes and so many bytes. None where
/// they are of another form, or bytes are left.
#[tactic(auto, unfolding(crate::specs::Texts::texts_in))]
pub(crate) fn texts_in(bytes: &[u8]) -> Option<Texts<'_>>
    ensures { option_map texts_of result ≡ texts_in bytes.now }
{
    let Some((mixed, rest)) = text_at(bytes) else {
        return None;
    };
    let Some((single, [])) = text_at(rest) else {
        return None;
    };
    Some(Texts { mixed, single })
}

/// The text that counts, the first one that is present; none where neither is, or the bytes are of
/// another form.
pub(crate) fn text_in(bytes: &[u8]) -> Option<&[u8]>
    ensures { option_copied result ≡ text_in bytes.now }
{
    let Some(texts) = texts_in(bytes) else {
        return None;
    };
    match texts.mixed {
        Some(text) => Some(text),
        None => texts.single,
    }
}
