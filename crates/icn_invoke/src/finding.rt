// Procedures by their names.
ghost use Rattle.std.specs.Prelude.{◌≡◌, ◌<◌, IfSome};
ghost use Rattle.icn_convert.specs.ProgramNames.{name_count};
ghost use Rattle.icn_defs.specs.NamedValues.{number_named};

use icn_convert::Names;

/// The number of what a text names: a procedure, a record constructor or a function, looked for in this order; of several the one with
/// the least number. `None` where nothing has that name. It takes no memory.
pub fn find<N: Names>(names: &N, text: &[u8]) -> Option<u32>
    ensures named { result ≡ number_named (N.known names.now) text.now }
    ensures there { IfSome result (λ number. number < name_count (N.known names.now)) }
{
    for number in 0..names.count() {
        if text == names.proc(number) {
            return Some(number);
        }
    }
    None
}
