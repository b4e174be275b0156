// Laws of joined code.
ghost use Rattle.std.specs.Prelude.{◌≡◌, List, None, true};
ghost use Rattle.std.specs.List.{list_all};
ghost use Rattle.icn_code.specs.Rules.{keeps_rules};
ghost use Rattle.icn_unit.specs.PlainUnits.{UnitRead};
ghost use Rattle.icn_unit.specs.UnitRules.{keeps_rules as keeps_unit_rules};
ghost use Rattle.icn_link.specs.Joined.{joined_code};
ghost use Rattle.icn_link.specs.JoinableUnits.{is_joinable};
ghost use Rattle.icn_link.specs.LinkFaults.{first_fault};

/// A unit that keeps the rules of units can be joined.
pub fn units_are_joinable()
    ensures { (unit : UnitRead) → keeps_unit_rules unit.procs unit.decls ≡ true → is_joinable unit ≡ true }
{}

/// The joined code of units that break no rule of linking keeps the rules of codes, where each of them can be joined, and so where each
/// keeps the rules of units.
pub fn joined_keeps_rules()
    ensures joinable { (units : List UnitRead) → list_all is_joinable units ≡ true → first_fault units ≡ None
        → keeps_rules (joined_code units) ≡ true }
    ensures kept { (units : List UnitRead)
        → list_all (λ unit. keeps_unit_rules unit.procs unit.decls) units ≡ true
        → first_fault units ≡ None → keeps_rules (joined_code units) ≡ true }
{}
