//! Sums and products that are wanting where a number has no room.
ghost use Rattle.std.specs.Prelude.{◌≡◌, ◌+◌, ◌*◌, IfOk};

use sql_values::Memory;

/// The sum. More than a machine word counts is answered with want of memory.
pub fn sum_of(left: usize, right: usize) -> Result<usize, Memory>
    ensures { IfOk result (λ n. n ≡ left + right) }
{
    left.checked_add(right).ok_or(Memory)
}

/// The sum. More than 32 bits count is answered with want of memory.
pub fn add(left: u32, right: u32) -> Result<u32, Memory>
    ensures { IfOk result (λ n. n ≡ left + right) }
{
    left.checked_add(right).ok_or(Memory)
}

/// The product. More than 32 bits count is answered with want of memory.
pub fn multiply(left: u32, right: u32) -> Result<u32, Memory>
    ensures { IfOk result (λ n. n ≡ left * right) }
{
    left.checked_mul(right).ok_or(Memory)
}
