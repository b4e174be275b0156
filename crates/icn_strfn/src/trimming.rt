// Texts without their ends.
ghost use Rattle.std.specs.Prelude.{◌≡◌, ◌-◌, ◌≤◌, length};
ghost use Rattle.std.specs.List.{suffix_len};
ghost use Rattle.icn_value.specs.Members.{contains, members_of};

use icn_value::Cset;

/// How many bytes of a text are left without those at its end that a cset has.
pub fn trimmed_len(text: &[u8], bytes: &Cset) -> usize
    ensures value { result ≡ length text.now - suffix_len (contains (members_of bytes.now)) text.now }
    ensures within { result ≤ length text.now }
{
    let mut len = text.len();
    while len > 0 {
        if bytes.has(text[len - 1]) {
            len -= 1;
        } else {
            return len;
        }
    }
    len
}
