// Laws of the codes of procedures.
ghost use Rattle.std.specs.Prelude.{◌≡◌, ℕ, All, Bool, [], true, List};
ghost use Rattle.std.specs.List.{list_all};
ghost use Rattle.icn_tree.specs.Trees.{Declaration, Procedure};
ghost use Rattle.icn_decls.specs.Faults.{context_faults, procedure_faults};
ghost use Rattle.icn_tree.specs.NameSets.{NameTest};
ghost use Rattle.icn_decls.specs.CheckedTexts.{IsSpelled};
ghost use Rattle.icn_translate.specs.FileUnits.{proc_codes, unit_decls};
ghost use Rattle.icn_translate.specs.NumbersTaken.{HaveRoom};
ghost use Rattle.icn_translate.specs.ProcCodes.{proc_code};
ghost use Rattle.icn_unit.specs.PlainUnits.{entry_names, owned_names, proc_names};
ghost use Rattle.icn_unit.specs.UnitOperands.{is_name};
ghost use Rattle.icn_unit.specs.UnitRules.{in_order, is_byte_text, labels_differ, labels_placed, keeps_rules, names_differ, placed_labels, same_names};
ghost use Rattle.icn_units.specs.CodeNames.{fields_differ, variables_are_named};
ghost use Rattle.icn_units.specs.TypeBounds.{bytes_fit, numbers_fit};
ghost use Rattle.icn_units.specs.Written.{HasBytes, file_fits, is_short, operand_fits, procedure_fits};

/// In the code of a procedure that breaks no context rule no label has two places, and each label that an instruction goes to
/// has one.
pub fn labels_have_one_place()
    ensures differ { (met : NameTest) (procedure : Procedure) → procedure_faults met procedure ≡ []
        → labels_differ (placed_labels (proc_code procedure).instrs) ≡ true }
    ensures placed { (met : NameTest) (procedure : Procedure) → procedure_faults met procedure ≡ []
        → labels_placed (proc_code procedure).instrs ≡ true }
{}

/// The names of that code differ, and stand in order: parameters, locals and statics, and then those that are not declared. Each
/// variable that an instruction pushes is that of one of them.
pub fn names_stand_once()
    ensures differ { (met : NameTest) (procedure : Procedure) → procedure_faults met procedure ≡ []
        → names_differ (entry_names (proc_code procedure).names) ≡ true }
    ensures order { (met : NameTest) (procedure : Procedure) → procedure_faults met procedure ≡ []
        → in_order (proc_code procedure).names ≡ true }
    ensures variables { (met : NameTest) (procedure : Procedure) → procedure_faults met procedure ≡ []
        → variables_are_named (proc_code procedure) ≡ true }
{}

/// The procedures and the records of a file that breaks no context rule differ by their names in its unit, so do the fields of a
/// record, and the procedures are those that the declarations name, in their order.
pub fn file_names_differ()
    ensures procedures { (file : List Declaration) → context_faults file ≡ []
        → names_differ (proc_names (proc_codes file)) ≡ true }
    ensures owners { (file : List Declaration) → context_faults file ≡ []
        → names_differ (owned_names (unit_decls file)) ≡ true }
    ensures fields { (file : List Declaration) → context_faults file ≡ []
        → list_all fields_differ (unit_decls file) ≡ true }
    ensures same { (file : List Declaration) → same_names (proc_codes file) (unit_decls file) ≡ true }
{}

/// The names of a text that breaks no rule of its tokens are such as a unit has, its literals are within their bounds, and the
/// last parameter of a procedure collects only where there is one. Where the texts of its tokens hold bytes, so do its own.
pub fn names_and_literals_fit()
    ensures short { (file : List Declaration) → IsSpelled file → file_fits is_short file ≡ true }
    ensures bytes { (file : List Declaration) (spelled : IsSpelled file)
        → All (λ token. HasBytes token.kind) spelled.tokens
        → file_fits is_byte_text file ≡ true }
{}

/// The code of each procedure of a checked text takes fewer than 2 ^ 32 numbers: of labels, of names, and of elements that are
/// counted.
pub fn codes_have_room()
    ensures { (file : List Declaration) → ∥ IsSpelled file ∥₁ → HaveRoom file }
{}

/// Where the names and the literals of a procedure are such, so are those of its code, for any test of texts.
pub fn code_texts_fit()
    ensures names { (passes : List ℕ → Bool) (met : NameTest) (procedure : Procedure)
        → procedure_faults met procedure ≡ []
        → procedure_fits passes procedure ≡ true
        → list_all is_name (entry_names (proc_code procedure).names) ≡ true }
    ensures operands { (passes : List ℕ → Bool) (met : NameTest) (procedure : Procedure)
        → procedure_faults met procedure ≡ []
        → procedure_fits passes procedure ≡ true
        → list_all (operand_fits passes) (proc_code procedure).instrs ≡ true }
{}

/// The unit of a text that breaks no rule keeps the rules of units, where the numbers of its instructions have 32 bits and the
/// bytes of its strings are bytes.
pub fn units_keep_rules()
    ensures { (file : List Declaration) → IsSpelled file → context_faults file ≡ []
        → list_all numbers_fit (proc_codes file) ≡ true
        → list_all bytes_fit (unit_decls file) ≡ true
        → keeps_rules (proc_codes file) (unit_decls file) ≡ true }
{}
