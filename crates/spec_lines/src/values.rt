//! What the values of a specification file stand for.
ghost use Rattle.std.specs.Prelude.{◌≡◌};
ghost use Rattle.spec_lines.specs.Values as values;

use crate::keywords::Heading;
use form_tokens::Dialect;
use forms::Mover;

/// The dialect of a value: `ltlf` or `ldlf`.
pub fn dialect_of(value: &[u8]) -> Option<Dialect>
    ensures { result ≡ values.dialect_of value.now }
{
    if value == b"ltlf".as_slice() {
        Some(Dialect::Ltlf)
    } else if value == b"ldlf".as_slice() {
        Some(Dialect::Ldlf)
    } else {
        None
    }
}

/// The mover of a value: `agent` or `environment`.
pub fn mover_of(value: &[u8]) -> Option<Mover>
    ensures { result ≡ values.mover_of value.now }
{
    if value == b"agent".as_slice() {
        Some(Mover::Agent)
    } else if value == b"environment".as_slice() {
        Some(Mover::Environment)
    } else {
        None
    }
}

/// Whether the empty history may meet the goal: `yes` or `no`.
pub fn empty_of(value: &[u8]) -> Option<bool>
    ensures { result ≡ values.empty_of value.now }
{
    if value == b"yes".as_slice() {
        Some(true)
    } else if value == b"no".as_slice() {
        Some(false)
    } else {
        None
    }
}

/// The greatest limit under this heading: 4,096 in version 2, else 1,024.
pub fn most_limit(heading: Heading) -> u32
    ensures { result ≡ values.most_limit heading }
{
    match heading {
        Heading::Two => 4096,
        Heading::One => 1024,
        Heading::Unsaid => 1024,
    }
}

/// The limit of a value: a decimal number from 1 to `most_limit` that begins with no `0`.
pub fn limit_of(heading: Heading, value: &[u8]) -> Option<u32>
    ensures { result ≡ values.limit_of (values.most_limit heading) value.now }
{
    let most = most_limit(heading);
    let mut limit = 0;
    for byte in value {
        if !byte.is_ascii_digit() || *byte == b'0' && limit == 0 || limit > most {
            return None;
        }
        limit = 10 * limit + u32::from(*byte - b'0');
    }
    if 1 <= limit && limit <= most {
        Some(limit)
    } else {
        None
    }
}
