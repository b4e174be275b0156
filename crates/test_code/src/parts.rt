// The parts that cases belong to.

/// What a case is of.
#[derive(Clone, Copy)]
pub enum CodePart {
    // no cases
    Front,
    Ucode,
    Link,
    Image,
    Verify,
}

/// A part by its name, or the one that stands in front of all.
pub fn part_named(name: &str) -> CodePart {
    match name {
        "ucode" => CodePart::Ucode,
        "link" => CodePart::Link,
        "image" => CodePart::Image,
        "verify" => CodePart::Verify,
        _ => CodePart::Front,
    }
}
