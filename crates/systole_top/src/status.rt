/// How a command ended. Its number is the exit status of the program.
#[derive(Clone, Copy, Debug, PartialEq, Eq)]
pub enum Status {
    /// All was done.
    Done = 0,
    /// The source is refused.
    Refused = 1,
    /// The words are no command.
    Usage = 2,
    /// A file couldn't be read.
    ReadFault = 3,
    /// Standard output or standard error took no more.
    WriteFault = 4,
    /// Memory ran out.
    Memory = 5,
    /// The input file breaks a rule.
    BadInput = 6,
    /// The schedule ended before the run did.
    Unfinished = 7,
    /// The schedule file breaks a rule.
    BadSchedule = 8,
    /// The object file breaks a rule.
    BadObject = 9,
}
