// From files that hold bytes to the texts of their trees.
ghost use Rattle.std.specs.Prelude.{◌≡◌, ◌≤◌, ℕ, List, true, Ok};
ghost use Rattle.icn_profile.specs.Numbers.{most_bytes_of_source};
ghost use Rattle.icn_host.specs.FileMaps.{FileMap, HoldBytes};
ghost use Rattle.icn_tree.specs.declared.lines.SourceLine.{SourceLine};
ghost use Rattle.icn_tree.specs.declared.token.Token.{Token};
ghost use Rattle.icn_tree.specs.SourceTexts.{joined_len};
ghost use Rattle.icn_tree.specs.Tokens.{Scanned, tokens_of};
ghost use Rattle.icn_tree.specs.Trees.{Declaration};
ghost use Rattle.icn_parse.specs.Outcomes.{IsOutcome, IsTree};
ghost use Rattle.icn_prep.specs.SourceLines.{PreprocessedSource, source_lines};
ghost use Rattle.icn_unit.specs.UnitRules.{is_byte_text};
ghost use Rattle.icn_units.specs.Written.{file_fits};
ghost use Rattle.law_source.specs.LineBytes.{lines_are_of_bytes};
ghost use Rattle.law_source.specs.TokenBytes.{tokens_are_of_bytes};

/// Where files hold bytes, each line that a named file gives is bytes, whatever it includes, defines and replaces.
pub fn lines_of_bytes()
    ensures { (files : FileMap) (name : List ℕ) (source : PreprocessedSource) → HoldBytes files
        → source_lines files name ≡ Ok source → lines_are_of_bytes source.lines ≡ true }
{}

/// Where lines are bytes, so are the names and the literals of their tokens, whatever escapes stand for.
pub fn tokens_of_bytes()
    ensures { (lines : List SourceLine) (tokens : List Token) → lines_are_of_bytes lines ≡ true
        → tokens_of lines ≡ Scanned tokens → tokens_are_of_bytes tokens ≡ true }
{}

/// Where lines are bytes, and no more than a named file may give, so are the literals of what is parsed, and the names that it links.
pub fn texts_of_bytes()
    ensures { (lines : List SourceLine) (tokens : List Token) (file : List Declaration)
        → joined_len lines ≤ most_bytes_of_source
        → lines_are_of_bytes lines ≡ true → tokens_of lines ≡ Scanned tokens → IsOutcome tokens (IsTree file)
        → file_fits is_byte_text file ≡ true }
{}
