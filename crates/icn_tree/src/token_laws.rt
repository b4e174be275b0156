// Laws of the definition of tokens.
ghost use Rattle.std.specs.Prelude.{◌≡◌, ◌≤◌, ℕ, List, [], ◌∷◌, ◌++◌, length, map, All, false};
ghost use Rattle.icn_tree.specs.declared.lines.SourceLine.{SourceLine};
ghost use Rattle.icn_tree.specs.declared.rule.Rule.{Rule};
ghost use Rattle.icn_tree.specs.declared.token.Kind.{Kind};
ghost use Rattle.icn_tree.specs.declared.token.Kind.TheVariants.{Word as WordKind};
ghost use Rattle.icn_tree.specs.declared.token.Token.{Token};
ghost use Rattle.icn_tree.specs.declared.token.Word.TheVariants.{By, Do, Else, Of, Then, To};
ghost use Rattle.icn_tree.specs.Semicolons.{LineToken, is_beginner, is_ender, with_semicolons};
ghost use Rattle.icn_tree.specs.SourceTexts.{joined_len};
ghost use Rattle.icn_tree.specs.TokenBounds.{IsFormed, IsScanRule, IsSized};
ghost use Rattle.icn_tree.specs.TokenSpellings.{SpellsAll};
ghost use Rattle.icn_tree.specs.Tokens.{Fault, Scanned, tokens_of};

/// No semicolon comes in before a token that can begin no expression, as `then`, `do`, `of` and `to`, and none behind one
/// that can end none: such neighbours are cut apart with nothing between them.
pub fn semicolons_inserted()
    ensures before { (front rest : List LineToken) (a b : LineToken) → is_beginner b.token.kind ≡ false
        → with_semicolons (front ++ a ∷ b ∷ rest)
        ≡ with_semicolons (front ++ a ∷ []) ++ with_semicolons (b ∷ rest) }
    ensures behind { (front rest : List LineToken) (a b : LineToken) → is_ender a.token.kind ≡ false
        → with_semicolons (front ++ a ∷ b ∷ rest)
        ≡ with_semicolons (front ++ a ∷ []) ++ with_semicolons (b ∷ rest) }
    ensures words { All (λ word. is_beginner (WordKind word) ≡ false) (Then ∷ Do ∷ Of ∷ To ∷ By ∷ Else ∷ []) }
{}

/// The rule that lines break is one of tokens.
pub fn scan_rules()
    ensures { (lines : List SourceLine) (rule : Rule) (file line : ℕ) → tokens_of lines ≡ Fault rule file line
        → IsScanRule rule }
{}

/// Lines have no more tokens than bytes, with their newlines, and each token is within its bounds: an identifier is a name and no
/// reserved word, the members of a cset ascend, and an augmented operator is one of the twenty-eight.
pub fn tokens_bounded()
    ensures count { (lines : List SourceLine) (tokens : List Token) → tokens_of lines ≡ Scanned tokens
        → length tokens ≤ joined_len lines }
    ensures sized { (lines : List SourceLine) (tokens : List Token) → tokens_of lines ≡ Scanned tokens
        → All (λ token. IsSized token.kind) tokens }
    ensures formed { (lines : List SourceLine) (tokens : List Token) → tokens_of lines ≡ Scanned tokens
        → All (λ token. IsFormed token.kind) tokens }
{}

/// Tokens that are spelled on one line, with one blank between them, are the same tokens again; and the tokens of lines can
/// be spelled so.
pub fn tokens_spelled_again()
    ensures again { (kinds : List Kind) (line : SourceLine) → SpellsAll kinds line.bytes
        → tokens_of (line ∷ [])
        ≡ Scanned (map (λ kind. record { kind = kind; line = line.number; file = line.file }) kinds) }
    ensures always { (lines : List SourceLine) (tokens : List Token) → tokens_of lines ≡ Scanned tokens
        → (text : List ℕ) × SpellsAll (map (λ token. token.kind) tokens) text }
{}
