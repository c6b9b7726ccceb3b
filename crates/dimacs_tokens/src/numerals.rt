//! Number tokens: one or more decimal digits, with a minus before them or without. Leading zeros
//! are allowed, and so is any length. A minus before the value 0 is no number, and nor is a token
//! with a plus.
ghost use Rattle.std.specs.Prelude.{◌≡◌};
ghost use Rattle.dimacs_tokens.specs.Numbers.{value_of, more_numeral, digit_after};

/// What the bytes of a token so far say as a number.
#[derive(Clone, Copy, Debug, PartialEq, Eq)]
pub enum Numeral {
    /// No byte yet.
    Nothing,
    /// A minus alone.
    Minus,
    /// Digits, with or without a minus before them. A size from `u32::MAX` on is held as
    /// `u32::MAX`.
    Whole { negative: bool, size: u32 },
    /// Anything else.
    Broken,
}

impl Numeral {
    /// What the token says with this byte at its end.
    #[tactic(auto, unfolding(crate::specs::Numbers::more_numeral))]
    pub fn with(self, byte: u8) -> Numeral
        ensures { result ≡ more_numeral self byte }
    {
        match self {
            Numeral::Nothing if byte == b'-' => Numeral::Minus,
            Numeral::Nothing => digit_after(false, 0, byte),
            Numeral::Minus => digit_after(true, 0, byte),
            Numeral::Whole { negative, size } => digit_after(negative, size, byte),
            Numeral::Broken => Numeral::Broken,
        }
    }

    /// The value of the token, or `None` where it is no number.
    pub fn value(self) -> Option<i64>
        ensures { result ≡ value_of self }
    {
        match self {
            Numeral::Whole {
                negative: false,
                size,
            } => Some(i64::from(size)),
            Numeral::Whole {
                negative: true,
                size,
            } if size > 0 => Some(-i64::from(size)),
            _ => None,
        }
    }
}

/// The number with one more byte at its end.
fn digit_after(negative: bool, size: u32, byte: u8) -> Numeral
    ensures { result ≡ digit_after negative size byte }
{
    if !byte.is_ascii_digit() {
        return Numeral::Broken;
    }
    let digit = u32::from(byte - b'0');
    Numeral::Whole {
        negative,
        size: size.saturating_mul(10).saturating_add(digit),
    }
}
