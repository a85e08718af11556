ghost use Rattle.std.specs.Prelude.{◌≡◌, ◌+◌, ◌<◌, ◌≤◌, ◌^◌, IfOk, OnOk};
ghost use Rattle.std.specs.Vec.{vec_len};
ghost use Rattle.sys_base.specs.Held.{element, with_counter, with_element, with_emitted, with_taken, with_word, given, takes_first, tested};
ghost use Rattle.cell_types.specs.Solo.{opening, value_of};
ghost use Rattle.cell_types.specs.Typed.{expression_of};
ghost use Rattle.rendezvous.specs.bodies.Fitting.{FitsExpression};
ghost use Rattle.rendezvous.specs.bodies.Stores.{held_of, KeepsSize};

use crate::choices::{first_kept, given, index_below, takes_first};
use cell_types::{Cell, TypedExpr};
use std::alloc::Global;
use sys_base::{Fault, Kind, Memory, Word, apply, negate};

/// What a cell holds while it runs: its words and counters, the fault that it keeps where it is broken, how many input
/// words it has taken, and the words that it has emitted.
#[derive(Debug, Drop)]
pub(crate) struct Store {
    pub cell: u16,
    pub words: Vec<Word>,
    pub counters: Vec<u16>,
    pub kept: Option<Fault>,
    pub taken: usize,
    pub output: Vec<Word>,
}

impl Store {
    /// What a cell holds before it has done anything.
    pub(crate) fn new(alloc: Global, index: u16, cell: &Cell) -> Result<Store, Memory>
        ensures held { IfOk result (λ s. held_of s ≡ (opening cell.now.words cell.now.counters).held) }
        ensures cell { IfOk result (λ s. s.cell ≡ index) }
    {
        Ok(Store {
            cell: index,
            words: vec![in alloc; Word::Num(0); usize::from(cell.words)]?,
            counters: vec![in alloc; 0; usize::from(cell.counters)]?,
            kept: None,
            taken: 0,
            output: Vec::new(alloc),
        })
    }

    /// The value of an expression of a statement on a line.
    pub(crate) fn value(&self, line: u32, expression: &TypedExpr) -> Word
        requires { FitsExpression (vec_len self.now.words) (vec_len self.now.counters) (expression_of expression.now) }
        ensures { result ≡ value_of self.now.cell line (held_of self.now) (expression_of expression.now) }
    {
        match expression {
            TypedExpr::Number(number) => Word::Num(*number as i64),
            TypedExpr::Word(word) => self.words[usize::from(*word)],
            TypedExpr::Counter(counter) => {
                Word::Num(i64::from(self.counters[usize::from(*counter)]))
            }
            TypedExpr::At { base, len, index } => {
                self.element(*base, *len, self.value(line, index), line)
            }
            TypedExpr::Negate(operand) => negate(self.value(line, operand), self.cell, line),
            TypedExpr::Binary(op, left, right) => {
                let left = self.value(line, left);
                apply(*op, left, self.value(line, right), self.cell, line)
            }
        }
    }

    /// The element at an index of an array, or the fault in its place.
    fn element(&self, base: u16, len: u16, index: Word, line: u32) -> Word
        requires { base + len ≤ vec_len self.now.words }
        ensures { result ≡ element (held_of self.now) base len index self.now.cell line }
    {
        match index {
            Word::Fault(fault) => Word::Fault(fault),
            Word::Num(number) => match index_below(number, len) {
                Some(index) => self.words[usize::from(base) + usize::from(index)],
                None => Word::Fault(self.outside(line)),
            },
        }
    }

    /// The fault of an index outside its array.
    fn outside(&self, line: u32) -> Fault
        ensures { result ≡ record { kind = Kind.X; cell = self.now.cell; line = line } }
    {
        Fault {
            kind: Kind::X,
            cell: self.cell,
            line,
        }
    }

    /// Stores a word in a variable.
    pub(crate) fn set(&mut self, word: u16, value: Word)
        requires { word < vec_len self.old.words }
        ensures held { held_of self.new ≡ with_word (held_of self.old) word value }
        ensures size { KeepsSize self.old self.new }
    {
        self.words[usize::from(word)] = value;
    }

    /// Stores a value at an index of an array, or breaks the cell.
    pub(crate) fn set_element(&mut self, base: u16, len: u16, index: Word, value: Word, line: u32)
        requires { base + len ≤ vec_len self.old.words }
        ensures held { held_of self.new ≡ with_element (held_of self.old) base len index value self.old.cell line }
        ensures size { KeepsSize self.old self.new }
    {
        match index {
            Word::Fault(fault) => self.kept = first_kept(self.kept, fault),
            Word::Num(number) => match index_below(number, len) {
                Some(index) => self.words[usize::from(base) + usize::from(index)] = value,
                None => self.kept = first_kept(self.kept, self.outside(line)),
            },
        }
    }

    /// Gives a counter a value.
    pub(crate) fn count(&mut self, counter: u8, value: u16)
        requires { counter < vec_len self.old.counters }
        ensures held { held_of self.new ≡ with_counter (held_of self.old) counter value }
        ensures size { KeepsSize self.old self.new }
    {
        self.counters[usize::from(counter)] = value;
    }

    /// Takes the next input word into a variable, and 0 past the end of the input.
    pub(crate) fn take(&mut self, input: &[i64], word: u16)
        requires word { word < vec_len self.old.words }
        requires few { self.old.taken + 1 < 2 ^ 64 }
        ensures held { held_of self.new ≡ with_taken (held_of self.old) input.now word }
        ensures size { KeepsSize self.old self.new }
    {
        let number = input.get(self.taken).copied().unwrap_or(0);
        self.words[usize::from(word)] = Word::Num(number);
        self.taken += 1;
    }

    /// Emits a value, or the fault that is kept.
    pub(crate) fn emit(&mut self, value: Word) -> Result<(), Memory>
        ensures held { OnOk result (held_of self.new ≡ with_emitted (held_of self.old) value) }
        ensures size { KeepsSize self.old self.new }
    {
        self.output.push(given(self.kept, value))?;
        Ok(())
    }

    /// Tests a word, whose fault breaks the cell: whether it takes the first arm.
    pub(crate) fn test(&mut self, word: Word) -> bool
        ensures first { result ≡ takes_first self.old.kept word }
        ensures held { held_of self.new ≡ tested (held_of self.old) word }
        ensures size { KeepsSize self.old self.new }
    {
        let first = takes_first(self.kept, word);
        if let Word::Fault(fault) = word {
            self.kept = first_kept(self.kept, fault);
        }
        first
    }

    /// What is given out in place of a value: the fault that is kept, if there is one.
    pub(crate) fn given(&self, value: Word) -> Word
        ensures { result ≡ given self.now.kept value }
    {
        given(self.kept, value)
    }

    /// The words that it has emitted.
    pub(crate) fn into_output(self) -> Vec<Word>
        ensures { result.items ≡ self.output.items }
    {
        let Store {
            cell: _,
            words: _,
            counters: _,
            kept: _,
            taken: _,
            output,
        } = self;
        output
    }
}
