//! The line of each refusal.
ghost use Rattle.std.specs.Prelude.{◌≡◌, Some};
ghost use Rattle.refusals.specs.Texts.{allowed, end_words, kind_words, labelled, text_of, twice_text};

use crate::refusal::{Refusal, Twice};
use cell_lexer::{GREATEST_NUMBER, OPEN_BRACES, PIECE_TOKENS};
use std::fmt;
use sys_base::{
    BUFFER, CellName, LABEL, Limit, MESSAGES, NAME_BYTES, Name, QUEUES, SIDE, SOURCE_BYTES, STEPS,
    TURNS, VARIABLES, WORDS,
};

impl fmt::Display for Refusal {
    ghost output = { λ refusal. Some (text_of refusal) };

    #[tactic(auto, unfolding(crate::specs::Texts::text_of))]
    fn fmt<W: fmt::Write>(&self, f: &mut fmt::Formatter<W>) -> fmt::Result {
        match self {
            Refusal::BadByte { at } => write!(f, "E01 byte at {at} is not part of the language"),
            Refusal::Unexpected { line, column } => write!(
                f,
                "E02 line {line} column {column}: not expected here"
            ),
            Refusal::BigNumber { line } => write!(
                f,
                "E03 line {line}: the number is more than {GREATEST_NUMBER}"
            ),
            Refusal::LongName { line } => write!(
                f,
                "E04 line {line}: the name has more than {NAME_BYTES} bytes"
            ),
            Refusal::LongSource => write!(f, "E05 the source has more than {SOURCE_BYTES} bytes"),
            Refusal::LongPiece { line } => write!(
                f,
                "E06 line {line}: more than {PIECE_TOKENS} tokens without ; {{ or }}"
            ),
            Refusal::Braces { line } => write!(
                f,
                "E07 line {line}: more than {OPEN_BRACES} braces are open"
            ),
            Refusal::Limit { limit, line } => write!(f, "E10 line {line}: {}", Allowed(*limit)),
            Refusal::Twice { what, line } => write!(f, "E11 line {line}: {what} stands twice"),
            Refusal::OutsideGrid { line } => write!(f, "E12 line {line}: outside the grid"),
            Refusal::SelfMessage { name, line } => write!(
                f,
                "E13 line {line}: {name} goes to its own sender"
            ),
            Refusal::Unknown { name, line } => write!(f, "E14 line {line}: {name} is not declared"),
            Refusal::ArmsDiffer { line } => write!(
                f,
                "E15 line {line}: the arms communicate differently"
            ),
            Refusal::WrongEnd {
                name,
                row,
                col,
                sends,
                line,
            } => write!(
                f,
                "E16 line {line}: cell {} does not {} {name}",
                CellName {
                    row: *row,
                    col: *col
                },
                end_words(*sends)
            ),
            Refusal::WrongKind { name, found, line } => write!(
                f,
                "E17 line {line}: {name} is {}",
                kind_words(*found)
            ),
            Refusal::RouteLeaves { name, line } => write!(
                f,
                "E18 line {line}: the route of {name} leaves the grid"
            ),
            Refusal::RouteEnd { name, line } => write!(
                f,
                "E19 line {line}: the route of {name} does not end at its receiver"
            ),
            Refusal::RouteTwice { name, link, line } => write!(
                f,
                "E20 line {line}: the route of {name} uses link {link} twice"
            ),
            Refusal::Crossing { left, .. } => write!(
                f,
                "E30 crossing-off leaves {left} operations"
            ),
            Refusal::Fall {
                row,
                col,
                at,
                before,
                first,
                after,
                second,
            } => write!(
                f,
                "E40 cell {} at {at}: {} follows {}",
                CellName {
                    row: *row,
                    col: *col
                },
                Labelled {
                    name: after,
                    label: *second
                },
                Labelled {
                    name: before,
                    label: *first
                }
            ),
            Refusal::SomeLabels { name } => write!(
                f,
                "E41 {name} has no label and another message has one"
            ),
            Refusal::TooFew {
                link,
                label,
                need,
                has,
                ..
            } => write!(
                f,
                "E50 link {link} label {label} needs {need} queues and has {has}"
            ),
            Refusal::CellSteps => write!(f, "E60 the cells take more than {STEPS} steps"),
            Refusal::Bound { bound } => write!(f, "E61 the bound {bound} is more than {STEPS}"),
        }
    }
}

/// A message and its label.
#[derive(Clone, Copy)]
struct Labelled<'a> {
    name: &'a Name,
    label: u16,
}

impl fmt::Display for Labelled<'_> {
    ghost output = { λ message. Some (labelled message.name.now message.label) };

    #[tactic(auto, unfolding(crate::specs::Texts::labelled))]
    fn fmt<W: fmt::Write>(&self, f: &mut fmt::Formatter<W>) -> fmt::Result {
        write!(f, "{} with label {}", self.name, self.label)
    }
}

/// What a limit of the language allows.
#[derive(Clone, Copy)]
struct Allowed(Limit);

impl fmt::Display for Allowed {
    ghost output = { λ limit. Some (allowed limit.0) };

    #[tactic(auto, unfolding(crate::specs::Texts::allowed))]
    fn fmt<W: fmt::Write>(&self, f: &mut fmt::Formatter<W>) -> fmt::Result {
        match self.0 {
            Limit::Rows => write!(f, "rows are 1 to {SIDE}"),
            Limit::Columns => write!(f, "columns are 1 to {SIDE}"),
            Limit::Queues => write!(f, "queues are 1 to {QUEUES}"),
            Limit::Messages => write!(f, "messages are at most {MESSAGES}"),
            Limit::Label => write!(f, "labels are 0 to {LABEL}"),
            Limit::Names => write!(f, "variables are at most {VARIABLES} in a cell"),
            Limit::Words => write!(f, "words are 1 to {WORDS} in a cell"),
            Limit::Turns => write!(f, "loop counts are 0 to {TURNS}"),
            Limit::Buffer => write!(f, "the buffer is 0 to {BUFFER}"),
        }
    }
}

impl fmt::Display for Twice {
    ghost output = { λ what. Some (twice_text what) };

    fn fmt<W: fmt::Write>(&self, f: &mut fmt::Formatter<W>) -> fmt::Result {
        match self {
            Twice::Link(link) => write!(f, "{link}"),
            Twice::Cell(cell) => write!(f, "{cell}"),
            Twice::Named(name) => write!(f, "{name}"),
        }
    }
}

fn end_words(sends: bool) -> &'static str
    ensures { result.now ≡ end_words sends }
{
    if sends { "send" } else { "receive" }
}

fn kind_words(found: u8) -> &'static str
    ensures { result.now ≡ kind_words found }
{
    match found {
        0 => "a message",
        1 => "a variable",
        2 => "an array",
        _ => "a counter",
    }
}
