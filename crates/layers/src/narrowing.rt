//! Numbers of locations, in 32 bits.
ghost use Rattle.std.specs.Prelude.{◌≡◌, ◌<◌, ◌≤◌, ◌^◌, ℕ, length, IfOk, Some};
ghost use Rattle.attractor.specs.Graph.{number_at};
ghost use Rattle.layers.specs.Narrowed.{AreNarrowed};

use bes_io::Memory;
use std::alloc::Global;

/// The same number in 32 bits.
fn narrow(number: Option<usize>) -> Option<u32>
    requires { (n : ℕ) → number ≡ Some n → n < 2 ^ 32 }
    ensures { result ≡ number }
{
    match number {
        Some(n) => Some(n as u32),
        None => None,
    }
}

/// The first numbers in 32 bits.
pub fn narrowed(
    alloc: Global,
    numbers: &[Option<usize>],
    count: usize,
) -> Result<Vec<Option<u32>>, Memory>
    requires count { count ≤ length numbers.now }
    requires small { (k n : ℕ) → k < count → number_at numbers.now k ≡ Some n → n < 2 ^ 32 }
    ensures { IfOk result (λ made. AreNarrowed numbers.now made.items count) }
{
    let mut made = Vec::new(alloc);
    for at in 0..count {
        made.push(narrow(numbers[at]))?;
    }
    Ok(made)
}
