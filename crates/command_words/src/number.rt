//! The numbers of options.
ghost use Rattle.std.specs.Prelude.{◌≡◌, ◌-◌, ◌<◌, ◌^◌, ◌≤◌, IfSome};
ghost use Rattle.command_words.specs.Commands.{number_upto};

/// The number from 1 to `most` that the text writes by decimal digits alone; any number of zeros
/// may stand before them.
pub(crate) fn number_upto(most: u64, text: &[u8]) -> Option<u64>
    requires { most < 2 ^ 64 - 1 }
    ensures number { result ≡ number_upto most text.now }
    ensures from { IfSome result (λ n. 1 ≤ n) }
    ensures upto { IfSome result (λ n. n ≤ most) }
{
    let mut value: u64 = 0;
    for byte in text {
        if !byte.is_ascii_digit() {
            return None;
        }
        value = value
            .saturating_mul(10)
            .saturating_add(u64::from(*byte - b'0'));
    }
    let inside = 1 <= value && value <= most;
    inside.then_some(value)
}
