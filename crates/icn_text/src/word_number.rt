// Numbers as words of a command.
ghost use Rattle.std.specs.Prelude.{◌≡◌, ◌+◌, ◌-◌, ◌*◌, ◌≤◌, ◌^◌, MatchOption};
ghost use Rattle.std.specs.List.{list_all};
ghost use Rattle.icn_text.specs.WordNumbers.{is_digit, number_within, value_from};

/// The number from `low` to `high` that one or more decimal digits write.
pub fn number_within(text: &[u8], low: u64, high: u64) -> Option<u64>
    ensures { result ≡ number_within low high text.now }
{
    if text.is_empty() || !are_digits(text) {
        return None;
    }
    let n = value(text)?;
    if low <= n && n <= high { Some(n) } else { None }
}

fn are_digits(text: &[u8]) -> bool
    ensures { result ≡ list_all is_digit text.now }
{
    text.iter().all(|b| is_digit(*b))
}

fn is_digit(b: u8) -> bool
    ensures { result ≡ is_digit b }
{
    b >= b'0' && b <= b'9'
}

// The number that digits write, where it has 64 bits.
fn value(text: &[u8]) -> Option<u64>
    ensures { MatchOption result (2 ^ 64 ≤ value_from 0 text.now) (λ n. n ≡ value_from 0 text.now) }
{
    let mut value = 0;
    let mut rest = text;
    while let Some((byte, others)) = rest.split_first() {
        let Some(next) = with_digit(value, *byte) else {
            return None;
        };
        value = next;
        rest = others;
    }
    Some(value)
}

fn with_digit(value: u64, byte: u8) -> Option<u64>
    ensures { MatchOption result (2 ^ 64 ≤ value * 10 + (byte - 48)) (λ n. n ≡ value * 10 + (byte - 48)) }
{
    value
        .checked_mul(10)?
        .checked_add(u64::from(byte.saturating_sub(b'0')))
}
