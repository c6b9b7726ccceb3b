//! The bytes that cut a text: the one that ends a line, and those that part tokens.
ghost use Rattle.std.specs.Prelude.{◌≡◌};
ghost use Rattle.dimacs_tokens.specs.Bytes.{is_newline, is_white};

/// Whether the byte ends a line.
pub fn is_newline(byte: u8) -> bool
    ensures { result ≡ is_newline byte }
{
    byte == b'\n'
}

/// Whether the byte is white space inside a line: tab, vertical tab, form feed, carriage return or
/// space.
#[tactic(auto, unfolding(crate::specs::Bytes::is_white))]
pub fn is_white(byte: u8) -> bool
    ensures { result ≡ is_white byte }
{
    byte == 9 || byte == 11 || byte == 12 || byte == 13 || byte == 32
}
