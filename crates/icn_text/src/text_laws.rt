// Laws of the tables, and of integers as text.
ghost use Rattle.std.specs.Prelude.{◌≡◌, ℕ, ℤ, FitsSigned, List, Some};
ghost use Rattle.std.specs.Fmt.{signed_decimal};
ghost use Rattle.std.specs.Int.{w64};
ghost use Rattle.icn_text.specs.declared.func.Func.{Func};
ghost use Rattle.icn_text.specs.declared.keyword.Keyword.{Keyword};
ghost use Rattle.icn_text.specs.Funcs.{func_name};
ghost use Rattle.icn_text.specs.Integers.{WritesInteger};
ghost use Rattle.icn_text.specs.Keywords.{keyword_name};
ghost use Rattle.icn_text.specs.Reading.{written_integer};

/// No two functions have one name, and no two keywords.
pub fn names_differ()
    ensures functions { (a b : Func) → func_name a ≡ func_name b → a ≡ b }
    ensures keywords { (a b : Keyword) → keyword_name a ≡ keyword_name b → a ≡ b }
{}

/// A text writes at most one integer.
pub fn one_integer()
    ensures { (text : List ℕ) (a b : ℤ) → WritesInteger text a → WritesInteger text b → a ≡ b }
{}

/// What is found in a text is the integer that it writes.
pub fn found_integer()
    ensures found { (text : List ℕ) (n : ℤ) → WritesInteger text n → written_integer text ≡ Some n }
    ensures written { (text : List ℕ) (n : ℤ) → written_integer text ≡ Some n → WritesInteger text n }
{}

/// The decimal text of an integer of 64 bits is read as that integer.
pub fn decimal_read_back()
    ensures writes { (n : ℤ) → FitsSigned w64 n → WritesInteger (signed_decimal n) n }
    ensures found { (n : ℤ) → FitsSigned w64 n → written_integer (signed_decimal n) ≡ Some n }
{}
