// The parts that cases belong to.

/// What a case is of.
#[derive(Clone, Copy)]
pub enum SourcePart {
    // no cases
    Front,
    Source,
    Translate,
    Trees,
}

/// A part by its name, or the one that stands in front of all.
pub fn part_named(name: &str) -> SourcePart {
    match name {
        "source" => SourcePart::Source,
        "translate" => SourcePart::Translate,
        "trees" => SourcePart::Trees,
        _ => SourcePart::Front,
    }
}
