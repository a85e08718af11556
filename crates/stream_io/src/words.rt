ghost use Rattle.std.specs.Prelude.{◌≡◌, IfOk, string_bytes};
ghost use Rattle.serde_json.specs.View.{view};
ghost use Rattle.stream_io.specs.Results.{fault_text, kind_letter, word_data, words_data};

use serde_json::Value;
use std::alloc::Global;
use sys_base::{Fault, Kind, Memory, Word};

/// A list of words as JSON.
pub(crate) fn words_value(alloc: Global, words: &[Word]) -> Result<Value, Memory>
    ensures { IfOk result (λ value. view value ≡ words_data words.now) }
{
    let mut list = Vec::with_capacity(alloc, words.len())?;
    for word in words {
        list.push(word_value(alloc, *word)?)?;
    }
    Ok(Value::Array(list))
}

/// A word as JSON: an integer, or the text of a fault.
fn word_value(alloc: Global, word: Word) -> Result<Value, Memory>
    ensures { IfOk result (λ value. view value ≡ word_data word) }
{
    match word {
        Word::Num(number) => Ok(Value::from(number)),
        Word::Fault(fault) => Ok(Value::String(fault_text(alloc, fault)?)),
    }
}

/// A fault as it is printed: `!K@I:L`.
fn fault_text(alloc: Global, fault: Fault) -> Result<String, Memory>
    ensures { IfOk result (λ text. string_bytes text ≡ fault_text fault) }
{
    let Fault { kind, cell, line } = fault;
    let letter = letter(kind);
    Ok(format!(in alloc; "!{letter}@{cell}:{line}")?)
}

/// The letter of a kind.
fn letter(kind: Kind) -> &'static str
    ensures { result.now ≡ kind_letter kind }
{
    match kind {
        Kind::O => "O",
        Kind::Z => "Z",
        Kind::X => "X",
    }
}
