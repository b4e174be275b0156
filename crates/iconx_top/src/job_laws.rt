// Laws of the job.
ghost use Rattle.std.specs.Prelude.{◌≡◌, ℕ, List, Ok, Some};
ghost use Rattle.icn_host.specs.FileMaps.{FileMap, HoldBytes};
ghost use Rattle.icn_answer.specs.Answers.{IsFault};
ghost use Rattle.icn_defs.specs.Running.{Launch, launch_of};
ghost use Rattle.icn_code.specs.Codes.{Tables};
ghost use Rattle.icn_image.specs.Spelling.{image_of};
ghost use Rattle.iconx_top.specs.Job.{IsJob, IsMigration, IsRun, IsShort, Job};
ghost use Rattle.iconx_top.specs.LoadedImages.{IsJudged};
ghost use Rattle.iconx_top.specs.Words.{Asks, words_reading};

use icn_image::one_spelling;
use icn_verify::one_fault;
use law_safe::runs_end;

/// The words, the files and the input ask for a job, where the files hold bytes, and for one alone, which answers no fault.
pub fn one_job()
    ensures some { (words : List (List ℕ)) (files : FileMap) (left : List ℕ) → HoldBytes files
        → (job : Job) × IsJob words files left job }
    ensures one { (words : List (List ℕ)) (files : FileMap) (left : List ℕ) (a b : Job)
        → IsJob words files left a → IsJob words files left b → a ≡ b }
    ensures faultless { (words : List (List ℕ)) (files : FileMap) (left : List ℕ) (job : Job)
        → IsJob words files left job → IsFault job.answer → ⊥ }
{
    one_spelling();
    one_fault();
    runs_end();
}

/// A new image runs as the image that it was made of: words that name it in place of that one, under the same limits and with the same
/// arguments, ask for a run of the same code with the same input, over the files that are there then. Where that one is run over these
/// files too, both have the same launch, and so one observation (`one_observation` of `icn_run`).
pub fn migration_keeps_runs()
    ensures judged { (words : List (List ℕ)) (files : FileMap) (new : List ℕ) (tables : Tables)
        → HoldBytes files → IsMigration words files new tables → IsShort tables
        → IsJudged (image_of tables) (Ok tables) }
    ensures alike { (migration : List (List ℕ)) (files after : FileMap) (new : List ℕ) (tables : Tables)
        → HoldBytes files → (asked : IsMigration migration files new tables) → IsShort tables
        → after new ≡ Some (image_of tables)
        → (first second : List (List ℕ)) (left : List ℕ) (launch : Launch)
        → words_reading first ≡ Asks launch.bounds asked.name launch.words
        → words_reading second ≡ Asks launch.bounds new launch.words
        → IsRun first files left tables launch
        → IsRun second after left tables (launch_of launch.words launch.bounds left after) }
{
    one_spelling();
}
