//! What `run` is asked by its words.
ghost use Rattle.std.specs.Prelude.{◌≡◌, ◌≤◌, IfSome};
ghost use Rattle.std.specs.Option.{option_map};
ghost use Rattle.systole_top.specs.Shape.{after_prefix, chosen_by, chosen_of, file_chosen, number_in, run_shape, seed_chosen, shown};
ghost use Rattle.systole_top.specs.bodies.Inputs.{IsCapacity};

use schedules::plain_number;

/// The most words of a queue.
pub const CAPACITY: u64 = 64;

/// The schedule that `run` is asked for.
#[derive(Clone, Copy)]
pub enum ScheduleWord<'a> {
    Low,
    High,
    Round,
    Seeded(u64),
    InFile(&'a str),
}

/// What `run` is asked.
#[derive(Clone, Copy)]
pub struct RunWords<'a> {
    pub file: &'a str,
    pub input: &'a str,
    /// The capacity of the queues: 1 to `CAPACITY` words.
    pub capacity: u8,
    pub schedule: ScheduleWord<'a>,
    /// Whether the record follows the result line.
    pub recorded: bool,
}

/// Reads the words after `run`; `None` where they ask nothing.
pub fn read_run<'a>(
    file: &'a str,
    input: &'a str,
    capacity: &str,
    schedule: &'a str,
    recorded: bool,
) -> Option<RunWords<'a>>
    ensures shape { option_map shown result
        ≡ run_shape file.now input.now capacity.now schedule.now recorded }
    ensures asked { IfSome result (λ words. IsCapacity words.capacity) }
{
    if file.is_empty() || input.is_empty() {
        return None;
    }
    Some(RunWords {
        file,
        input,
        capacity: capacity_of(capacity)?,
        schedule: schedule_of(schedule)?,
        recorded,
    })
}

/// The capacity that a word spells.
fn capacity_of(word: &str) -> Option<u8>
    ensures value { result ≡ number_in 1 CAPACITY word.now }
    ensures inside { IfSome result IsCapacity }
{
    Some(number_in(1, CAPACITY, word)? as u8)
}

/// The schedule that a word names.
fn schedule_of(word: &str) -> Option<ScheduleWord<'_>>
    ensures { option_map chosen_by result ≡ chosen_of word.now }
{
    match word {
        "low" => Some(ScheduleWord::Low),
        "high" => Some(ScheduleWord::High),
        "round" => Some(ScheduleWord::Round),
        _ => match after_prefix("seed=", word) {
            Some(seed) => seed_of(seed),
            None => file_of(word),
        },
    }
}

/// The schedule of a number that a generator is made of.
fn seed_of(word: &str) -> Option<ScheduleWord<'_>>
    ensures { option_map chosen_by result ≡ seed_chosen word.now }
{
    Some(ScheduleWord::Seeded(number_in(0, u64::MAX, word)?))
}

/// The schedule of a word that names a file.
fn file_of(word: &str) -> Option<ScheduleWord<'_>>
    ensures { option_map chosen_by result ≡ file_chosen word.now }
{
    let name = after_prefix("file=", word)?;
    if name.is_empty() {
        return None;
    }
    Some(ScheduleWord::InFile(name))
}

/// What stands after a prefix; `None` where a word doesn't begin with it.
fn after_prefix<'a>(prefix: &str, word: &'a str) -> Option<&'a str>
    ensures { option_map (λ rest. rest.now) result ≡ after_prefix prefix.now word.now }
{
    word.strip_prefix(prefix)
}

/// The number of these bounds whose decimal a word is.
fn number_in(least: u64, most: u64, word: &str) -> Option<u64>
    ensures value { result ≡ number_in least most word.now }
    ensures inside { IfSome result (λ n. (least ≤ n) × (n ≤ most)) }
{
    let number = plain_number(word.as_bytes())?;
    if number < least {
        return None;
    }
    if most < number {
        return None;
    }
    Some(number)
}
