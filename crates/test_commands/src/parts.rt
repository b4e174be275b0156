// The parts that cases belong to.

/// What a case is of.
#[derive(Clone, Copy)]
pub enum CommandPart {
    // no cases
    Front,
    Icont,
    Programs,
    Running,
}

/// A part by its name, or the one that stands in front of all.
pub fn part_named(name: &str) -> CommandPart {
    match name {
        "icont" => CommandPart::Icont,
        "programs" => CommandPart::Programs,
        "running" => CommandPart::Running,
        _ => CommandPart::Front,
    }
}
