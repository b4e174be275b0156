// Laws of saves.
ghost use Rattle.std.specs.Prelude.{◌≡◌, ◌<◌, ℕ, List, All, Ok, true};
ghost use Rattle.icn_save.specs.Reading.{save_read};
ghost use Rattle.icn_save.specs.Saves.{SavedRun, keeps_format};
ghost use Rattle.icn_save.specs.Spelling.{save_bytes};

/// Bytes that are read as a run are its spelling, and it keeps the format. Each run that keeps the format is read again from its
/// spelling, so that two with one spelling are equal.
pub fn one_spelling()
    ensures kept { (bytes : List ℕ) (saved : SavedRun) → All (λ byte. byte < 256) bytes
        → save_read bytes ≡ Ok saved → keeps_format saved ≡ true }
    ensures spelled { (bytes : List ℕ) (saved : SavedRun) → All (λ byte. byte < 256) bytes
        → save_read bytes ≡ Ok saved → bytes ≡ save_bytes saved }
    ensures read_back { (saved : SavedRun) → keeps_format saved ≡ true → save_read (save_bytes saved) ≡ Ok saved }
    ensures once { (a b : SavedRun) → keeps_format a ≡ true → keeps_format b ≡ true
        → save_bytes a ≡ save_bytes b → a ≡ b }
{}
