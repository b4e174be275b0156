// The words of a line, and what they come to.
use icont_words::{Run, Task, WordsFault, read_command};
use std::alloc::{AllocError, Global};

/// What the words of a line come to, which blanks part. `AllocError` is want of memory.
pub fn reading_text(alloc: Global, line: &str) -> Result<String, AllocError> {
    let mut words = Vec::new(alloc);
    for word in line.split(' ') {
        words.push(String::from_str(alloc, word)?)?;
    }
    match read_command(alloc, &words) {
        Ok(task) => task_text(alloc, &task),
        Err(WordsFault::Faulty(kind)) => format!(in alloc; "kind {kind}"),
        Err(WordsFault::NoMemory) => String::from_str(alloc, "no memory"),
    }
}

fn task_text(alloc: Global, task: &Task<'_>) -> Result<String, AllocError> {
    match task {
        Task::Translate(names) => files_text(alloc, "translate", names),
        Task::Link { names, image, run } => link_text(alloc, names, *image, *run),
        Task::Generate { number, turns } => format!(in alloc; "generate {number}, {turns} turns"),
    }
}

fn files_text(alloc: Global, task: &str, names: &[&str]) -> Result<String, AllocError> {
    let mut text = String::from_str(alloc, task)?;
    for name in names {
        text.push(' ')?;
        text.push_str(name)?;
    }
    Ok(text)
}

fn link_text(
    alloc: Global,
    names: &[&str],
    image: Option<&str>,
    run: Option<Run<'_>>,
) -> Result<String, AllocError> {
    let mut text = files_text(alloc, "link", names)?;
    if let Some(name) = image {
        text.push_str(", image ")?;
        text.push_str(name)?;
    }
    if let Some(run) = run {
        push_run(alloc, &mut text, run)?;
    }
    Ok(text)
}

fn push_run(alloc: Global, text: &mut String, run: Run<'_>) -> Result<(), AllocError> {
    text.push_str(", run")?;
    for argument in run.arguments {
        text.push(' ')?;
        text.push_str(argument)?;
    }
    let turns = run.turns;
    text.push_str(&format!(in alloc; ", {turns} turns")?)
}
