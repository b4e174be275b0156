// Laws of the transfers.
ghost use Rattle.std.specs.Prelude.{◌≡◌, ℕ, Some};
ghost use Rattle.icn_value.specs.declared.val.Val.{Val};
ghost use Rattle.icn_coexp.specs.Transfers.{CoexpTable, source, enter_other, give, exhaust, KeepsOthers};

/// A transfer changes at most the co-expression that is left and the one that is entered.
pub fn transfers_keep_others()
    ensures enters { (n : ℕ) (v : Val) (t u : CoexpTable) → enter_other n v t ≡ Some u
        → KeepsOthers t.active n t.coexps u.coexps }
    ensures gives { (v : Val) (t u : CoexpTable) → give v t ≡ Some u
        → KeepsOthers t.active (source t) t.coexps u.coexps }
    ensures exhausts { (t u : CoexpTable) → exhaust t ≡ Some u
        → KeepsOthers t.active (source t) t.coexps u.coexps }
{}
