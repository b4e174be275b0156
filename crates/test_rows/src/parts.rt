// The parts that cases belong to.

/// What a case is of.
#[derive(Clone, Copy)]
pub enum RowPart {
    // no cases
    Front,
    Operations,
    Strings,
    Scan,
    Structures,
    InputOutput,
    Apply,
}

/// A part by its name, or the one that stands in front of all.
pub fn part_named(name: &str) -> RowPart {
    match name {
        "operations" => RowPart::Operations,
        "strings" => RowPart::Strings,
        "scan" => RowPart::Scan,
        "structures" => RowPart::Structures,
        "input_output" => RowPart::InputOutput,
        "apply" => RowPart::Apply,
        _ => RowPart::Front,
    }
}
