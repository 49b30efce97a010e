//! Decimal numbers of any length.

ghost use Rattle.std.specs.Prelude.{◌≡◌, ◌^◌, ◌-◌, min};
ghost use Rattle.std.specs.Option.{option_map};
ghost use Rattle.text_lines.specs.Numbers.{number_of, within as in_range};

/// The decimal number that the bytes are, leading zeros allowed, or `None` where they are no
/// number. One that is too large for a `u64` is read as the greatest `u64`.
#[tactic(auto, unfolding(crate::specs::Numbers::number_of))]
pub fn number(bytes: &[u8]) -> Option<u64>
    ensures { result ≡ option_map (λ n. min n u64.MAX) (number_of bytes.now) }
{
    if bytes.is_empty() {
        return None;
    }
    let mut value = 0u64;
    for byte in bytes {
        if !byte.is_ascii_digit() {
            return None;
        }
        value = value
            .saturating_mul(10)
            .saturating_add(u64::from(*byte - b'0'));
    }
    Some(value)
}

/// The decimal number that the bytes are, of any length, where it is from `least` to `most`.
pub fn number_within(bytes: &[u8], least: u32, most: u32) -> Option<u32>
    ensures { result ≡ in_range least most (number_of bytes.now) }
{
    match number(bytes) {
        Some(value) if u64::from(least) <= value && value <= u64::from(most) => Some(value as u32),
        _ => None,
    }
}
