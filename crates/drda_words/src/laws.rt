//! Laws of the shared words.

ghost use Rattle.drda_words.specs.Bytes.{PartsAreBytes};
ghost use Rattle.drda_words.specs.Number.{WordsAreNumbers};

/// Where two lists joined are bytes, so is each of them.
pub fn parts_are_bytes()
    ensures { PartsAreBytes }
{}

/// A number of two bytes is 256 times the first and the second.
pub fn words_are_numbers()
    ensures { WordsAreNumbers }
{}
