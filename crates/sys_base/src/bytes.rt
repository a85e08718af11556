//! The sorts of bytes that the source language tells apart (`specs/Bytes.antt`).
ghost use Rattle.std.specs.Prelude.{◌≡◌};
ghost use Rattle.sys_base.specs.Bytes.{is_letter, is_digit, is_word_byte, is_space};

/// Whether the byte is a letter or an underscore.
pub fn is_letter(byte: u8) -> bool
    ensures { result ≡ is_letter byte }
{
    byte.is_ascii_alphabetic() || byte == b'_'
}

/// Whether the byte is a digit 0 to 9.
pub fn is_digit(byte: u8) -> bool
    ensures { result ≡ is_digit byte }
{
    byte.is_ascii_digit()
}

/// Whether the byte may stand inside a word.
pub fn is_word_byte(byte: u8) -> bool
    ensures { result ≡ is_word_byte byte }
{
    is_letter(byte) || is_digit(byte)
}

/// Whether the byte is a space, a tab, a carriage return or a newline.
pub fn is_space(byte: u8) -> bool
    ensures { result ≡ is_space byte }
{
    byte == b' ' || byte == b'\t' || byte == b'\r' || byte == b'\n'
}
