// The first unknown keyword of declarations.
ghost use Rattle.std.specs.Prelude.{◌≡◌, ◌++◌, map};
ghost use Rattle.icn_tree.specs.TreeOf.{declaration_of, procedure_of};
ghost use Rattle.icn_parse.specs.Outcomes.{all_keywords, declaration_fault, first_fault, first_unknown, initial_keywords};
ghost use Rattle.icn_parse.specs.Views.{fault_found, place_found};

use crate::keywords::{check, check_all};
use icn_tree::{Decl, Place, Procedure};

/// What stands in a text that is not in this profile.
#[derive(Clone, Copy, Debug, PartialEq, Eq)]
pub enum Unfit {
    /// A keyword that is none; where its name stands.
    UnknownKeyword(Place),
}

impl From<Place> for Unfit {
    ghost use Rattle.icn_parse.specs.declared.check.Unfit.{Unfit};

    ghost from_gives = { λ place unfit. unfit ≡ Unfit.UnknownKeyword place };

    fn from(place: Place) -> Self {
        Unfit::UnknownKeyword(place)
    }
}

// Where the first unknown keyword of a procedure stands.
#[tactic(auto, using(crate::proofs::UnknownKeywords::unknown_kept, crate::proofs::UnknownKeywords::unknown_then))]
fn check_procedure(procedure: &Procedure) -> Result<(), Place>
    ensures { place_found result ≡ first_unknown (initial_keywords (procedure_of procedure.now).initial
        ++ all_keywords (procedure_of procedure.now).body) }
{
    if let Some(initial) = &procedure.initial {
        check(&initial.value)?;
    }
    check_all(&procedure.body)
}

// What a declaration has.
fn check_declaration(declaration: &Decl) -> Result<(), Unfit>
    ensures { fault_found result ≡ declaration_fault (declaration_of declaration.now) }
{
    match declaration {
        Decl::Procedure(procedure) => {
            check_procedure(procedure)?;
            Ok(())
        }
        Decl::Global { .. } | Decl::Link { .. } | Decl::Invocable { .. } | Decl::Record { .. } =>
            Ok(()),
    }
}

/// Checks that declarations have no unknown keyword. The error is the first one, with its place.
pub fn check_declarations(declarations: &[Decl]) -> Result<(), Unfit>
    ensures { fault_found result ≡ first_fault (map declaration_of declarations.now) }
{
    for declaration in declarations {
        check_declaration(declaration)?;
    }
    Ok(())
}
