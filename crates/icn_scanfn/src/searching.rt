// Searches in a text. Places count from 1, and a search ends within its text.
ghost use Rattle.std.specs.Prelude.{◌≡◌, ◌==◌, ◌&&◌, ◌+◌, ◌-◌, ◌<◌, ◌≤◌, ◌^◌, length, IfSome};
ghost use Rattle.std.specs.List.{find, prefix_len, range_with_len};
ghost use Rattle.icn_value.specs.Members.{contains, members_of};
ghost use Rattle.icn_defs.specs.Scanning.{balanced_position, between, byte_behind, count_behind, stands};

use icn_value::Cset;
use memchr::memmem;

/// The next place from this one on at which a text stands and ends by the last place. It takes no memory.
pub fn next_occurrence(wanted: &[u8], text: &[u8], place: u64, last: u64) -> Option<u64>
    requires low { 1 ≤ place }
    requires high { last ≤ length text.now + 1 }
    ensures value { result
        ≡ find (λ place. stands wanted.now text.now place last) (range_with_len place (last + 1 - place)) }
    ensures within { IfSome result (λ found. (1 ≤ found) × (found ≤ last)) }
{
    if place > last {
        return None;
    }
    let searched = &text[(place - 1) as usize..(last - 1) as usize];
    match memmem::find(searched, wanted) {
        Some(found) => Some(place + found as u64),
        None => None,
    }
}

/// The next place from this one on, below the last, behind which a byte of the cset stands. It takes no memory.
pub fn next_member(wanted: &Cset, text: &[u8], place: u64, last: u64) -> Option<u64>
    requires low { 1 ≤ place }
    requires high { last ≤ length text.now + 1 }
    ensures value { result ≡ find (λ place. contains (members_of wanted.now) (byte_behind text.now place))
        (range_with_len place (last - place)) }
    ensures within { IfSome result (λ found. (1 ≤ found) × (found < last)) }
{
    let mut at = place;
    while at < last {
        if wanted.has(text[(at - 1) as usize]) {
            return Some(at);
        }
        at += 1;
    }
    None
}

/// How many bytes of the cset stand behind a place, in a row and up to another place. It takes no memory.
pub fn run_length(wanted: &Cset, text: &[u8], from: u64, to: u64) -> u64
    requires low { 1 ≤ from }
    requires order { from ≤ to }
    requires high { to ≤ length text.now + 1 }
    ensures value { result ≡ prefix_len (contains (members_of wanted.now)) (between text.now from to) }
    ensures within { from + result ≤ to }
{
    let mut at = from;
    while at < to {
        if wanted.has(text[(at - 1) as usize]) {
            at += 1;
        } else {
            return at - from;
        }
    }
    to - from
}

/// The count behind a byte: one that opens adds 1, else one that closes takes 1. `None` comes exactly where it would be below 0.
pub fn count_behind(opening: &Cset, closing: &Cset, byte: u8, count: u64) -> Option<u64>
    requires { count < 2 ^ 63 }
    ensures value { result ≡ count_behind (members_of opening.now) (members_of closing.now) byte count }
    ensures small { IfSome result (λ behind. behind ≤ count + 1) }
{
    if opening.has(byte) {
        Some(count + 1)
    } else if closing.has(byte) {
        if count == 0 { None } else { Some(count - 1) }
    } else {
        Some(count)
    }
}

// Whether a byte is of the cset, and stands where the count is 0.
fn is_balanced_member(wanted: &Cset, byte: u8, count: u64) -> bool
    ensures { result ≡ ((count == 0) && contains (members_of wanted.now) byte) }
{
    count == 0 && wanted.has(byte)
}

/// The next place from this one on, with this count there, at which the count is 0 and a byte of the cset stands. It takes no
/// memory.
pub fn next_balanced(
    wanted: &Cset,
    opening: &Cset,
    closing: &Cset,
    text: &[u8],
    place: u64,
    last: u64,
    count: u64,
) -> Option<u64>
    requires low { 1 ≤ place }
    requires high { last ≤ length text.now + 1 }
    requires count { count ≤ place }
    ensures value { result ≡ balanced_position (members_of wanted.now) (members_of opening.now)
        (members_of closing.now) (between text.now place last) place count }
    ensures within { IfSome result (λ found. (1 ≤ found) × (found < last)) }
{
    let mut at = place;
    let mut depth = count;
    while at < last {
        let byte = text[(at - 1) as usize];
        if is_balanced_member(wanted, byte, depth) {
            return Some(at);
        }
        match count_behind(opening, closing, byte, depth) {
            Some(behind) => {
                depth = behind;
            }
            None => {
                return None;
            }
        }
        at += 1;
    }
    None
}
