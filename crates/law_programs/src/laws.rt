// What `icont` and `iconx` make of source files together.
ghost use Rattle.std.specs.Prelude.{◌≡◌, ℕ, List, Some};
ghost use Rattle.icn_host.specs.FileMaps.{FileMap};
ghost use Rattle.icn_tree.specs.Trees.{Declaration};
ghost use Rattle.icn_value.specs.Limited.{Bounds};
ghost use Rattle.icn_defs.specs.Running.{launch_of};
ghost use Rattle.icn_answer.specs.declared.answer.Answer.{Answer};
ghost use Rattle.icn_streams.specs.Handed.{CallStreams};
ghost use Rattle.icn_run_answer.specs.PendingBytes.{PendingBytes};
ghost use Rattle.icont_top.specs.WholeCall.{IsWholeCall as IcontAnswers};
ghost use Rattle.iconx_top.specs.WholeCall.{IsWholeCall as IconxAnswers};
ghost use Rattle.iconx_top.specs.Words.{Asks, words_reading};
ghost use Rattle.law_programs.specs.SourceImages.{AsksForSources, DoesAsSources, ImageStands, image_asked};

use icn_verify::one_fault;
use icont_words::one_reading;

/// The image of source files runs as these files mean. `icont` answered that it wrote, or wrote and ran, to words that ask for the
/// image of a program of source files alone; where it ran the program, that has left the image as it was. `iconx` is handed the files
/// that were left, words that name this image, with any arguments and limits, and an input that tells what it has. Then `iconx` does
/// what the source files mean with these arguments, limits and input, or its answer is a fault: it did nothing, or broke that off at
/// one moment.
pub fn images_run_as_sources()
    ensures { (words : List (List ℕ)) (files written : FileMap) (was wrote : CallStreams)
        (pended pends : PendingBytes) (first : Answer) (name : List ℕ) (sources : List (List Declaration))
        → was.files.held ≡ Some files → wrote.files.held ≡ Some written
        → IcontAnswers words was wrote pended pends first
        → (asks : AsksForSources words files name sources) → ImageStands first written (image_asked asks)
        → (asked arguments : List (List ℕ)) (bounds : Bounds) (left : List ℕ)
        (before after : CallStreams) (kept keeps : PendingBytes) (answer : Answer)
        → words_reading asked ≡ Asks bounds name arguments
        → before.left ≡ Some left → before.files.held ≡ Some written
        → IconxAnswers asked before after kept keeps answer
        → DoesAsSources sources (launch_of arguments bounds left written) asked written answer before after }
{
    one_reading();
    one_fault();
}
