// Laws of the tables.
ghost use Rattle.std.specs.Prelude.{◌≡◌, ◌++◌, ℕ, List, [], ◌∷◌, Some, drop};
ghost use Rattle.icn_defs.specs.InputOutput.{put_on};
ghost use Rattle.icn_defs.specs.Interruptions.{ExtendsBy, after_reading, left_behind};
ghost use Rattle.icn_defs.specs.Numbers.{func_of, keyword_of, op_of};
ghost use Rattle.icn_defs.specs.OpenFiles.{closed_in};
ghost use Rattle.icn_defs.specs.Running.{files_written};
ghost use Rattle.icn_text.specs.Funcs.{func_number};
ghost use Rattle.icn_text.specs.Keywords.{keyword_number};
ghost use Rattle.icn_text.specs.Ops.{op_number};
ghost use Rattle.icn_text.specs.declared.func.Func.{Func};
ghost use Rattle.icn_text.specs.declared.keyword.Keyword.{Keyword};
ghost use Rattle.icn_text.specs.declared.op.Op.{Op};
ghost use Rattle.icn_value.specs.Store.{AReading, Event, FileReading, FileWriting, Heap, Outside, Request, Setting, with_file_reading, with_file_writing};
ghost use Rattle.icn_value.specs.Values.{File};

/// The number of an operation, a function or a keyword leads back to it, and what a number leads to has that number.
pub fn numbers_lead_back()
    ensures ops { (op : Op) → op_of (op_number op) ≡ Some op }
    ensures funcs { (func : Func) → func_of (func_number func) ≡ Some func }
    ensures keywords { (keyword : Keyword) → keyword_of (keyword_number keyword) ≡ Some keyword }
    ensures op_numbers { (n : ℕ) (op : Op) → op_of n ≡ Some op → op_number op ≡ n }
    ensures func_numbers { (n : ℕ) (func : Func) → func_of n ≡ Some func → func_number func ≡ n }
    ensures keyword_numbers { (n : ℕ) (keyword : Keyword) → keyword_of n ≡ Some keyword
        → keyword_number keyword ≡ n }
{}

/// What is done outside adds up: each put, each reading of the input or of a file, each writing of a file, each closing and the end
/// of a run is some events, and events lead on from where others led. What is left of an input behind any events is a rest of it.
pub fn events_add_up()
    ensures put { (setting : Setting) (file : File) (text : List ℕ)
        → (done : List Event) × ExtendsBy setting.outside done (put_on file text setting).outside }
    ensures read { (outside : Outside) (asked : Request)
        → ExtendsBy outside (AReading asked ∷ []) (after_reading asked outside) }
    ensures found { (outside : Outside) (name : List ℕ)
        → ExtendsBy outside (FileReading name ∷ []) (with_file_reading name outside) }
    ensures written { (outside : Outside) (name bytes : List ℕ)
        → ExtendsBy outside (FileWriting name bytes ∷ []) (with_file_writing name bytes outside) }
    ensures closed { (setting : Setting) (file : File)
        → (done : List Event) × ExtendsBy setting.outside done (closed_in file setting).outside }
    ensures ended { (heap : Heap) (outside : Outside)
        → (done : List Event) × ExtendsBy outside done (files_written heap outside) }
    ensures joined { (was now later : Outside) (first second : List Event) → ExtendsBy was first now
        → ExtendsBy now second later → ExtendsBy was (first ++ second) later }
    ensures rest { (left : List ℕ) (done : List Event)
        → (taken : ℕ) × (left_behind left done ≡ drop taken left) }
{}
