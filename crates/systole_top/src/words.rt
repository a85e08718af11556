ghost use Rattle.std.specs.Prelude.{◌≡◌, [], ◌∷◌, map, string_bytes, IfSome};
ghost use Rattle.std.specs.Option.{option_map};
ghost use Rattle.systole_top.specs.Shape.{long_shape, recorded_in, schedule_shape, seen, shape, short_shape};
ghost use Rattle.systole_top.specs.bodies.Inputs.{CanBeAsked};

use crate::request::{RunWords, read_run};

/// A command, with its words.
#[derive(Clone, Copy)]
pub enum Command<'a> {
    Check(&'a str),
    Explain(&'a str),
    Compile(&'a str),
    Need(&'a str),
    Mean(&'a str, &'a str),
    Run(RunWords<'a>),
}

/// Reads the words of a command line; `None` where they are no command.
pub fn read_words(words: &[String]) -> Option<Command<'_>>
    ensures shape { option_map seen result ≡ shape (map string_bytes words.now) }
    ensures asked { IfSome result CanBeAsked }
{
    match read_short(words) {
        Some(command) => Some(command),
        None => read_long(words),
    }
}

/// Reads a command with its files.
fn read_short(words: &[String]) -> Option<Command<'_>>
    ensures shape { option_map seen result ≡ short_shape (map string_bytes words.now) }
    ensures asked { IfSome result CanBeAsked }
{
    match words {
        [command, file] => read_pair(command.as_str(), file.as_str()),
        [command, file, input] => read_triple(command.as_str(), file.as_str(), input.as_str()),
        _ => None,
    }
}

/// Reads a command with a schedule.
fn read_long(words: &[String]) -> Option<Command<'_>>
    ensures shape { option_map seen result ≡ long_shape (map string_bytes words.now) }
    ensures asked { IfSome result CanBeAsked }
{
    match words {
        [command, file, input, capacity, schedule, rest @ ..] => read_five(
            command.as_str(),
            file.as_str(),
            input.as_str(),
            capacity.as_str(),
            schedule.as_str(),
            recorded_in(rest)?,
        ),
        _ => None,
    }
}

/// Whether a run is to be recorded, by the words after its schedule; `None` where they say nothing of it.
fn recorded_in(words: &[String]) -> Option<bool>
    ensures { result ≡ recorded_in (map string_bytes words.now) }
{
    match words {
        [] => Some(false),
        [last] => {
            if last.as_str() == "record" {
                Some(true)
            } else {
                None
            }
        }
        _ => None,
    }
}

fn read_five<'a>(
    command: &str,
    file: &'a str,
    input: &'a str,
    capacity: &str,
    schedule: &'a str,
    recorded: bool,
) -> Option<Command<'a>>
    ensures shape { option_map seen result
        ≡ schedule_shape command.now file.now input.now capacity.now schedule.now recorded }
    ensures asked { IfSome result CanBeAsked }
{
    match command {
        "run" => {
            let words = read_run(file, input, capacity, schedule, recorded)?;
            Some(Command::Run(words))
        }
        _ => None,
    }
}

fn read_pair<'a>(command: &str, file: &'a str) -> Option<Command<'a>>
    ensures shape { option_map seen result ≡ short_shape (command.now ∷ file.now ∷ []) }
    ensures asked { IfSome result CanBeAsked }
{
    if file.is_empty() {
        return None;
    }
    match command {
        "check" => Some(Command::Check(file)),
        "explain" => Some(Command::Explain(file)),
        "compile" => Some(Command::Compile(file)),
        "need" => Some(Command::Need(file)),
        _ => None,
    }
}

fn read_triple<'a>(command: &str, file: &'a str, input: &'a str) -> Option<Command<'a>>
    ensures shape { option_map seen result ≡ short_shape (command.now ∷ file.now ∷ input.now ∷ []) }
    ensures asked { IfSome result CanBeAsked }
{
    if file.is_empty() || input.is_empty() {
        return None;
    }
    match command {
        "mean" => Some(Command::Mean(file, input)),
        _ => None,
    }
}
