// Laws of runs.
ghost use Rattle.std.specs.Prelude.{◌≡◌, ℕ, Bool};
ghost use Rattle.icn_code.specs.Codes.{Tables};
ghost use Rattle.icn_defs.specs.Running.{Launch, Observation};
ghost use Rattle.icn_run.specs.FlatStep as Flat;
ghost use Rattle.icn_run.specs.LinkedStep as Linked;

/// A run of a code, on flat stacks or on linked marks, has at most one observation: one ending, with the input left, what was put on
/// both outputs, and the readings that were made.
pub fn one_observation()
    ensures on_stacks { (tables : Tables) (launch : Launch) (a b : Observation) → Flat.Runs tables launch a
        → Flat.Runs tables launch b → a ≡ b }
    ensures on_marks { (repeats : ℕ → ℕ → Bool) (tables : Tables) (launch : Launch) (a b : Observation)
        → Linked.Runs repeats tables launch a → Linked.Runs repeats tables launch b → a ≡ b }
{}
