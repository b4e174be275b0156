// Laws of ucode.
ghost use Rattle.std.specs.Prelude.{◌≡◌, ℕ, List, true};
ghost use Rattle.icn_unit.specs.PlainUnits.{UnitRead};
ghost use Rattle.icn_unit.specs.UnitRules.{keeps_rules};
ghost use Rattle.icn_unit.specs.UnitTexts.{decls_text, procs_text};
ghost use Rattle.icn_ucode.specs.UnitReading.{Whole, unit_read};

/// Two texts that are read as a unit are its spelling, and the unit keeps the rules of the format. A unit that keeps them is
/// read from its spelling, under its base name. So units that keep them, of one base name and with one spelling, are equal.
pub fn one_spelling()
    ensures rules { (name u1 u2 : List ℕ) (unit : UnitRead) → unit_read name u1 u2 ≡ Whole unit
        → keeps_rules unit.procs unit.decls ≡ true }
    ensures spelled { (name u1 u2 : List ℕ) (unit : UnitRead) → unit_read name u1 u2 ≡ Whole unit
        → (procs_text unit.procs ≡ u1) × (decls_text unit.decls ≡ u2) × (unit.name ≡ name) }
    ensures read_back { (unit : UnitRead) → keeps_rules unit.procs unit.decls ≡ true
        → unit_read unit.name (procs_text unit.procs) (decls_text unit.decls) ≡ Whole unit }
    ensures once { (a b : UnitRead) → keeps_rules a.procs a.decls ≡ true → keeps_rules b.procs b.decls ≡ true
        → a.name ≡ b.name → procs_text a.procs ≡ procs_text b.procs → decls_text a.decls ≡ decls_text b.decls
        → a ≡ b }
{}
