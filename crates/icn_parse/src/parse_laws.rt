// Laws of the definition.
ghost use Rattle.std.specs.Prelude.{◌≡◌, List, None};
ghost use Rattle.icn_tree.specs.declared.token.Token.{Token};
ghost use Rattle.icn_tree.specs.Declarations.{IsTreeOf};
ghost use Rattle.icn_tree.specs.Trees.{Declaration};
ghost use Rattle.icn_parse.specs.Longest.{ReadsByGrammar, ReadsLongest};
ghost use Rattle.icn_parse.specs.Outcomes.{Parsed, IsTree, IsOutcome, first_fault, first_too_high};

/// Tokens have exactly one outcome.
pub fn one_outcome()
    ensures most { (tokens : List Token) (a b : Parsed) → IsOutcome tokens a → IsOutcome tokens b → a ≡ b }
    ensures least { (tokens : List Token) → (outcome : Parsed) × IsOutcome tokens outcome }
{}

/// The tokens of a tree parse to that tree, unless it is too high or has an unknown keyword.
pub fn trees_are_read()
    ensures { (file : List Declaration) (tokens : List Token) → IsTreeOf file tokens
        → first_too_high file ≡ None → first_fault file ≡ None
        → (outcome : Parsed) → IsOutcome tokens outcome → outcome ≡ IsTree file }
{}

/// What `icn_expr::expression` reads in front of some tokens is the longest expression that stands there by the grammar.
pub fn longest_expressions()
    ensures reads_longest { ReadsLongest }
    ensures by_grammar { ReadsByGrammar }
{}
