// Laws of the grammar's definition.
ghost use Rattle.std.specs.Prelude.{◌≡◌, ℕ, List, [], ◌↔◌};
ghost use Rattle.std.specs.List.{AllByRecursion};
ghost use Rattle.icn_tree.specs.declared.token.Token.{Token};
ghost use Rattle.icn_tree.specs.Trees.{Tree, Declaration};
ghost use Rattle.icn_tree.specs.Grammar.{Part, Spells};
ghost use Rattle.icn_tree.specs.Declarations.{IsTreeOf, IsDeclarationOf, HasTree, SpellDeclaration};
ghost use Rattle.icn_tree.specs.Pieces.{pieces};

/// A list of tokens has at most one tree: as a program text, as one declaration, and as an expression of each level.
pub fn one_tree()
    ensures file { (a b : List Declaration) (tokens : List Token) → IsTreeOf a tokens → IsTreeOf b tokens
        → a ≡ b }
    ensures declaration { (a b : Declaration) (tokens : List Token) → IsDeclarationOf a tokens
        → IsDeclarationOf b tokens → a ≡ b }
    ensures expression { (level : ℕ) (a b : Tree) (tokens : List Token) → Part level a (Spells a) tokens []
        → Part level b (Spells b) tokens [] → a ≡ b }
{}

/// A list of tokens has a tree exactly where each of its pieces spells a declaration.
pub fn tree_by_pieces()
    ensures { (tokens : List Token) → HasTree tokens ↔ AllByRecursion SpellDeclaration (pieces tokens) }
{}
