// Laws of kept procedures and of pruned code.
ghost use Rattle.std.specs.Prelude.{◌≡◌, ◌<◌, ℕ, Bool, List, length, true};
ghost use Rattle.std.specs.List.{All};
ghost use Rattle.icn_code.specs.Codes.{Tables};
ghost use Rattle.icn_code.specs.Rules.{keeps_rules};
ghost use Rattle.icn_defs.specs.KeptProcedures.{IsLeast, MentionLists, kept_from};
ghost use Rattle.icn_prune.specs.KeptCode.{MayBeKept, kept_of};
ghost use Rattle.icn_prune.specs.PrunedCode.{pruned_tables};

/// What is kept is the least set that has the procedures that are kept for their own sake, and with each one all that it mentions.
pub fn kept_is_least()
    ensures least { (mentioned : MentionLists) (own : List ℕ) → All (λ number. number < length mentioned) own
        → All (λ numbers. All (λ number. number < length mentioned) numbers) mentioned
        → IsLeast mentioned own (kept_from mentioned own) }
    ensures of_code { (tables : Tables) (named : List ℕ) (all : Bool) → keeps_rules tables ≡ true
        → All (λ number. number < length tables.procs) named → MayBeKept tables (kept_of tables named all) }
{}

/// The pruned code keeps the rules of codes.
pub fn pruned_code_fits()
    ensures { (tables : Tables) (keep : List Bool) → keeps_rules tables ≡ true → MayBeKept tables keep
        → keeps_rules (pruned_tables keep tables) ≡ true }
{}
