// Laws of the words.
ghost use Rattle.std.specs.Prelude.{◌≡◌, ℕ, List};
ghost use Rattle.icont_words.specs.Words.{ComeTo, WordsReading};

/// All words come to a task or to a kind of fault, and to one alone.
pub fn one_reading()
    ensures some { (words : List (List ℕ)) → (reading : WordsReading) × ComeTo words reading }
    ensures one { (words : List (List ℕ)) (a b : WordsReading) → ComeTo words a → ComeTo words b → a ≡ b }
{}
