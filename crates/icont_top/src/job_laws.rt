// Laws of the definitions that contracts cite.
ghost use Rattle.std.specs.Prelude.{◌≡◌, ℕ, All, List, Some, Ok};
ghost use Rattle.icn_host.specs.FileMaps.{FileMap, HoldBytes};
ghost use Rattle.icn_tree.specs.declared.token.Token.{Token};
ghost use Rattle.icn_tree.specs.Trees.{Declaration};
ghost use Rattle.icn_code.specs.Codes.{Tables};
ghost use Rattle.icn_answer.specs.Answers.{IsFault};
ghost use Rattle.icont_units.specs.Files.{CommandFile};
ghost use Rattle.icont_units.specs.Translating.{TokensGive};
ghost use Rattle.icont_units.specs.Units.{FilesCome, Gather, Load, Member, units_of};
ghost use Rattle.icont_top.specs.Job.{IsJob, AsksForUnits, Job, ucode_files};
ghost use Rattle.icont_top.specs.Outcomes.{IsReadBack, WritesAll};
ghost use Rattle.icont_top.specs.Programs.{Links, linked_code};
ghost use Rattle.icont_top.specs.Relinking.{AllFit, AreHeld, GathersAlike, HoldTheOthers, LinksAlike, StandAgain, ucode_members, ucode_named};

use icn_link::{joined_keeps_rules, units_are_joinable};
use icn_meaning::one_observation;
use icn_prune::{kept_is_least, pruned_code_fits};
use icn_ucode::one_spelling;
use icn_verify::one_fault;
use icont_words::one_reading;
use law_link::{translations_are_joinable, translations_join};
use law_prune::pruned_code_is_verified;
use law_safe::runs_end;
use law_source::{lines_of_bytes, texts_of_bytes};
use law_verified::{joined_code_is_verified, programs_mean};

/// A list of tokens is at most one program.
pub fn one_program()
    ensures { (tokens : List Token) (a b : List Declaration) → TokensGive tokens (Ok a)
        → TokensGive tokens (Ok b) → a ≡ b }
{}

/// The words, the files and the input ask for a job, where the files hold bytes, and for one alone, which answers no fault.
pub fn one_job()
    ensures some { (words : List (List ℕ)) (files : FileMap) (left : List ℕ) → HoldBytes files
        → (job : Job) × IsJob words files left job }
    ensures one { (words : List (List ℕ)) (files : FileMap) (left : List ℕ) (a b : Job)
        → IsJob words files left a → IsJob words files left b → a ≡ b }
    ensures faultless { (words : List (List ℕ)) (files : FileMap) (left : List ℕ) (job : Job)
        → IsJob words files left job → IsFault job.answer → ⊥ }
{
    one_reading();
    one_observation();
    one_fault();
    one_spelling();
    joined_keeps_rules();
    units_are_joinable();
    translations_join();
    translations_are_joinable();
    joined_code_is_verified();
    kept_is_least();
    pruned_code_fits();
    pruned_code_is_verified();
    programs_mean();
    runs_end();
    lines_of_bytes();
    texts_of_bytes();
}

/// Units that were written as ucode and have no text over 268435456 bytes are read as the same units, so what they link is the same, their
/// code is, and the image of a program that is made of it has the same name and the same bytes.
pub fn units_link_alike()
    ensures written { (words : List (List ℕ)) (before after : FileMap) (members : List Member)
        → AsksForUnits words before (Ok members)
        → WritesAll (Some before) (Some after) (ucode_files members) → AllFit members
        → StandAgain members before after }
    ensures come { (members : List Member) (files : FileMap) → All IsReadBack members → AreHeld files members
        → FilesCome files (ucode_named members) (Ok (ucode_members members)) }
    ensures gather { (before after : FileMap) (a b : List Member) (mentioned : List (List ℕ))
        (more : List Member) → units_of b ≡ units_of a
        → HoldTheOthers a before after → Gather before a mentioned (Ok more)
        → GathersAlike after b mentioned more }
    ensures linked { (a b : List Member) → units_of a ≡ units_of b → linked_code a ≡ linked_code b }
    ensures program { (before after : FileMap) (named : List CommandFile) (members more : List Member)
        (tables : Tables) → FilesCome before named (Ok members)
        → All IsReadBack members → AreHeld after members → HoldTheOthers members before after
        → Load before named (Ok more)
        → Links more (Ok tables) → LinksAlike after (ucode_named members) more tables }
{
    one_spelling();
}
