//! The code of a program that breaks no rule is verified code: the verifier finds none of its own rules broken in it. So the
//! program means something: its evaluation ends, whatever the words, the limits and the input are.
#![tactic(auto)]

ghost use Rattle.std.specs.Prelude.{◌≡◌, true, List};
ghost use Rattle.icn_defs.specs.Running.{Launch, Observation};
ghost use Rattle.icn_code.specs.Codes.{Tables};
ghost use Rattle.icn_code.specs.Rules.{keeps_rules};
ghost use Rattle.icn_tree.specs.Trees.{Declaration};
ghost use Rattle.icn_verify.specs.Faults.{IsVerified};
ghost use Rattle.law_simulation.specs.FirstLaw.{IsLinked, FilesMean};
ghost use Rattle.law_verified.specs.VerifierShapes.{CodesHaveShapes, CodesSound};

use law_safe::runs_end;
use law_simulation::same_ends;

/// The joined code of files that break no rule is verified code.
pub fn joined_code_is_verified()
    ensures { (files : List (List Declaration)) (tables : Tables) → IsLinked files tables
        → IsVerified tables }
{}

/// The translation of a procedure whose trees fit has the shapes that the verifier wants, which are those that are noted beside its instructions,
/// and breaks none of its rules.
pub fn translations_are_sound()
    ensures shapes { CodesHaveShapes }
    ensures sound { CodesSound }
{}

/// Where the files of a program break no rule, and their joined code keeps the limits of a code, the program comes to an end of which
/// something is observed: it neither goes on for ever nor lacks anything on the way.
pub fn programs_mean()
    ensures { (files : List (List Declaration)) (tables : Tables) (launch : Launch)
        → IsLinked files tables → keeps_rules tables ≡ true
        → (seen : Observation) × FilesMean files launch seen }
{
    joined_code_is_verified();
    runs_end();
    same_ends();
}
