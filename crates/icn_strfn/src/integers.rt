// Integers whose bits are moved, and their absolute values.
ghost use Rattle.std.specs.Prelude.{◌≡◌, ◌+◌, ℕ, negsuc, pos, unsigned_abs};
ghost use Rattle.icn_text.specs.IntegerArithmetic.{within_64_bits};
ghost use Rattle.icn_defs.specs.Strings.{shift_by};
ghost use Rattle.icn_strfn.specs.Checks.{natural_in};

use icn_text::Arith;

/// The absolute value. The error is `Overflow`, for the least integer.
pub fn absolute_value(n: i64) -> Result<i64, Arith>
    ensures { result ≡ within_64_bits (pos (unsigned_abs n)) }
{
    n.checked_abs().ok_or(Arith::Overflow)
}

/// An integer shifted to the left, or to the right with zeros by a count below 0; 0 from 64 on.
pub fn shift_integer(m: i64, n: i64) -> i64
    ensures { result ≡ shift_by m n }
{
    match u64::try_from(n) {
        Ok(count) => shift_left(m, count),
        Err(_) => shifted_right(m, n.unsigned_abs()),
    }
}

/// An integer at or above 0.
pub fn natural_number(n: i64) -> Option<u64>
    ensures { result ≡ natural_in n }
{
    u64::try_from(n).ok()
}

fn shift_left(m: i64, count: u64) -> i64
    ensures { result ≡ shift_by m (pos count) }
{
    if count < 64 {
        (m.cast_unsigned() << count).cast_signed()
    } else {
        0
    }
}

fn shifted_right(m: i64, count: u64) -> i64
    ensures { (k : ℕ) → count ≡ k + 1 → result ≡ shift_by m (negsuc k) }
{
    if count < 64 {
        (m.cast_unsigned() >> count).cast_signed()
    } else {
        0
    }
}
