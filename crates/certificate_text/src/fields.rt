ghost use Rattle.std.specs.Prelude.{◌≡◌, ◌≢◌, ◌<◌, ◌≤◌, ◌^◌, ℕ, decimal, IfSome, IfNone};
ghost use Rattle.printed_strategy.specs.StrategyText.{bits_text};

/// The number below 2^32 that a text is the decimal of.
pub fn read_number(text: &[u8]) -> Option<u32>
    ensures some { IfSome result (λ n. text.now ≡ decimal n) }
    ensures none { IfNone result ((n : ℕ) → n < 2 ^ 32 → text.now ≢ decimal n) }
{
    if text.len() == 0 {
        return None;
    }
    if text.len() > 10 {
        return None;
    }
    let leads = text[0] == b'0' && text.len() > 1;
    if leads {
        return None;
    }
    let mut value: u64 = 0;
    for b in text {
        if *b < b'0' {
            return None;
        }
        if *b > b'9' {
            return None;
        }
        value = value * 10 + (*b - b'0') as u64;
    }
    if value < 1 << 32 {
        Some(value as u32)
    } else {
        None
    }
}

/// The number that so many bits spell, the highest first; `.` stands for none.
pub fn read_bits(text: &[u8], width: usize) -> Option<u64>
    requires { width ≤ 32 }
    ensures some { IfSome result (λ n. (n < 2 ^ width) × (text.now ≡ bits_text width n)) }
    ensures none { IfNone result ((n : ℕ) → n < 2 ^ width → text.now ≢ bits_text width n) }
{
    if width == 0 {
        if text == b".".as_slice() {
            return Some(0);
        }
        return None;
    }
    if text.len() != width {
        return None;
    }
    let mut value: u64 = 0;
    for b in text {
        if *b == b'0' {
            value *= 2;
        } else if *b == b'1' {
            value = value * 2 + 1;
        } else {
            return None;
        }
    }
    Some(value)
}
