// Positions in texts and lists, and the places that they mean.
ghost use Rattle.std.specs.Prelude.{◌≡◌, ◌+◌, ◌<◌, ◌≤◌, ◌^◌, ℕ, IfSome};
ghost use Rattle.icn_value.specs.Store.{Setting};
ghost use Rattle.icn_defs.specs.Rows.{Row, thing_or_failure};
ghost use Rattle.icn_defs.specs.Variables.{element_position, in_order, places};

use icn_vars::position_of;

/// The place of the element that a position stands before, from 1 on. `None` comes exactly where it stands before none.
pub fn element_position(n: i64, size: u64) -> Option<u64>
    requires { size < 2 ^ 63 }
    ensures place { (next : ℕ → Row) (setting : Setting)
        → element_position n size next setting ≡ thing_or_failure result next setting }
    ensures low { IfSome result (λ place. 1 ≤ place) }
    ensures high { IfSome result (λ place. place ≤ size) }
{
    match position_of(n, size) {
        Some(place) => { if place <= size { Some(place) } else { None } }
        None => None,
    }
}

/// The places that two positions mean, the smaller first. `None` comes exactly where one of them is out of range.
pub fn places(m: i64, n: i64, size: u64) -> Option<(u64, u64)>
    requires { size < 2 ^ 63 }
    ensures places { (next : ℕ × ℕ → Row) (setting : Setting)
        → places m n size next setting ≡ thing_or_failure result next setting }
    ensures low { IfSome result (λ ends. 1 ≤ ends.0) }
    ensures order { IfSome result (λ ends. ends.0 ≤ ends.1) }
    ensures high { IfSome result (λ ends. ends.1 ≤ size + 1) }
{
    match position_of(m, size) {
        Some(a) => match position_of(n, size) {
            Some(b) => Some(in_order(a, b)),
            None => None,
        },
        None => None,
    }
}

// Two places, the smaller first.
fn in_order(a: u64, b: u64) -> (u64, u64)
    ensures ends { result ≡ in_order a b }
{
    if a <= b { (a, b) } else { (b, a) }
}
