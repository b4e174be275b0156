// The parts that cases belong to.

/// What a case is of.
#[derive(Clone, Copy)]
pub enum StorePart {
    // no cases
    Front,
    Containers,
    Heap,
    Convert,
    Variables,
    Stacks,
}

/// A part by its name, or the one that stands in front of all.
pub fn part_named(name: &str) -> StorePart {
    match name {
        "containers" => StorePart::Containers,
        "heap" => StorePart::Heap,
        "convert" => StorePart::Convert,
        "variables" => StorePart::Variables,
        "stacks" => StorePart::Stacks,
        _ => StorePart::Front,
    }
}
