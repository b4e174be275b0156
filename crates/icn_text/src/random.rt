// Random numbers: the sequence of `&random`, and a pick by one.
ghost use Rattle.std.specs.Prelude.{◌≡◌, ◌<◌, ◌^◌};
ghost use Rattle.icn_text.specs.RandomNumbers.{random_step, pick_place};

// Above every state.
const STATES: u64 = 1 << 31;

/// The state of `&random` behind this one, below 2^31.
pub fn random_step(state: u32) -> u32
    ensures stepped { result ≡ random_step state }
    ensures below { result < 2 ^ 31 }
{
    ((1_103_515_245 * u64::from(state) + 453_816_694) % STATES) as u32
}

/// The place, from 0 on, that a state below 2^31 picks among `size` places.
pub fn pick(state: u32, size: u64) -> u64
    requires { state < 2 ^ 31 }
    ensures picked { result ≡ pick_place state size }
    ensures below { 0 < size → result < size }
{
    (u128::from(state) * u128::from(size) / u128::from(STATES)) as u64
}
