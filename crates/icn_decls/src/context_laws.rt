// Laws of the context rules.
ghost use Rattle.std.specs.Prelude.{◌≡◌, List, []};
ghost use Rattle.icn_tree.specs.declared.rule.Rule.{Rule};
ghost use Rattle.icn_tree.specs.declared.tree.Name.{Name};
ghost use Rattle.icn_decls.specs.Faults.{all_repeated};
ghost use Rattle.icn_tree.specs.NameSets.{none_met};
ghost use Rattle.icn_decls.specs.DistinctNames.{Once};

/// Names break the rule that none stands twice exactly where two of them have one text.
pub fn names_once()
    ensures kept { (rule : Rule) (names : List Name) → Once names → all_repeated rule none_met names ≡ [] }
    ensures broken { (rule : Rule) (names : List Name) → all_repeated rule none_met names ≡ [] → Once names }
{}
