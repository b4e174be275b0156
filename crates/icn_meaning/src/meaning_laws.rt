// Laws of the meaning.
ghost use Rattle.std.specs.Prelude.{◌≡◌};
ghost use Rattle.icn_defs.specs.Running.{Launch, Observation};
ghost use Rattle.icn_meaning.specs.Meaning.{Means};
ghost use Rattle.icn_meaning.specs.Program.{Program};

/// A program has, with its words, its limits and the outside before it, at most one observation.
pub fn one_observation()
    ensures { (program : Program) (launch : Launch) (a b : Observation) → Means program launch a
        → Means program launch b → a ≡ b }
{}
