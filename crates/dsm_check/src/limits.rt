//! Counts within their limits, and numbers of the text.

ghost use Rattle.std.specs.Prelude.{◌≡◌, ◌≤◌};
ghost use Rattle.dsm_check.specs.Checks.{within, natural};
ghost use Rattle.dsm_check.specs.Answers.{Gives};

use dsm_syntax::{ProgErr, Which};

/// A count within its limit. `Limit` comes for a greater one, with the count, or with the greatest number of 32 bits.
pub fn within(which: Which, most: u32, count: u64) -> Result<u32, ProgErr>
    ensures { Gives (λ count. count) result (within which most count) }
{
    if u64::from(most) < count {
        return Err(ProgErr::Limit {
            which,
            count: count.min(u64::from(u32::MAX)) as u32,
        });
    }
    Ok(count as u32)
}

/// A number of the text. None is below 0.
pub fn natural(value: i64) -> u64
    ensures value { result ≡ natural value }
    ensures range { result ≤ 9223372036854775807 }
{
    u64::try_from(value).unwrap_or(0)
}
