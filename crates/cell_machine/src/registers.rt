ghost use Rattle.std.specs.Prelude.{◌≡◌, ◌+◌, ◌<◌, ◌≤◌, ◌^◌, ℤ, pos, ◌∷◌, [], reverse, IfOk, length, slice_index_or};
ghost use Rattle.std.specs.Vec.{vec_len, vec_capacity};
ghost use Rattle.cell_code.specs.Rows.{opening_state, Moves};
ghost use Rattle.cell_code.specs.declared.instruction.Instr.TheVariants as I;
ghost use Rattle.sys_base.specs.Held.{element, with_element, tested};
ghost use Rattle.sys_base.specs.declared.word.Word.TheVariants.{Num};
ghost use Rattle.cell_machine.specs.Ready.{state_of, row_here, HasPlace, HasWords, IsReady, Keeps};
ghost use Rattle.cell_machine.specs.Steps.{Does};

use crate::choices::{choose, first_kept, given, grown, index_below, takes_first};
use crate::port::Port;
use crate::step::CellStep;
use cell_code::{CellImage, Instr};
use std::alloc::Global;
use sys_base::{Fault, Kind, Memory, Op, Word, apply, negate};

/// The registers of a machine. The top of the stack is its last word.
#[derive(Debug, Drop)]
pub(crate) struct Registers {
    pub cell: u16,
    pub at: u32,
    pub stack: Vec<Word>,
    pub words: Vec<Word>,
    pub counters: Vec<u32>,
    pub kept: Option<Fault>,
    pub input: Vec<i64>,
    pub taken: usize,
    pub output: Vec<Word>,
}

impl Registers {
    /// The registers of a new machine, with all memory that it needs.
    pub(crate) fn new(
        alloc: Global,
        cell: u16,
        image: &CellImage,
        input: Vec<i64>,
    ) -> Result<Registers, Memory>
        ensures state { IfOk result (λ r. state_of r ≡ opening_state image.now.words image.now.counters) }
        ensures cell { IfOk result (λ r. r.cell ≡ cell) }
        ensures input { IfOk result (λ r. r.input.items ≡ input.items) }
        ensures places { IfOk result (λ r. image.now.stack ≤ vec_capacity r.stack) }
        ensures room { IfOk result (λ r. image.now.emits ≤ vec_capacity r.output) }
    {
        Ok(Registers {
            cell,
            at: 0,
            stack: Vec::with_capacity(alloc, usize::from(image.stack))?,
            words: vec![in alloc; Word::Num(0); usize::from(image.words)]?,
            counters: vec![in alloc; 0; usize::from(image.counters)]?,
            kept: None,
            input,
            taken: 0,
            output: Vec::with_capacity(alloc, image.emits as usize)?,
        })
    }

    /// Executes one instruction.
    #[tactic(auto, using(crate::proofs::Rows::does_moves))]
    pub(crate) fn act<P: Port>(&mut self, instr: Instr, port: &mut P) -> CellStep
        requires ready { IsReady instr self.old }
        requires at { self.old.at + 1 < 2 ^ 32 }
        ensures row { Does P.room P.first P.wrote P.gave (row_here self.old instr)
            (state_of self.old) (state_of self.new) port.old port.new result }
        ensures keeps { Keeps self.old self.new }
    {
        match instr {
            Instr::Push(number) => self.push(Word::Num(number)),
            Instr::Load(word) => self.load(word),
            Instr::LoadAt { base, len, line } => self.load_at(base, len, line),
            Instr::Counter(counter) => self.counter(counter),
            Instr::Neg { line } => self.negate(line),
            Instr::Bin { op, line } => self.apply(op, line),
            Instr::Store(word) => self.store(word),
            Instr::StoreAt { base, len, line } => self.store_at(base, len, line),
            Instr::Write(message) => self.write(message, port),
            Instr::Read { message, word } => self.read(message, word, port),
            Instr::Take(word) => self.take(word),
            Instr::Emit => self.emit(),
            Instr::Loop {
                counter,
                turns,
                exit,
            } => self.begin_loop(counter, turns, exit),
            Instr::Next {
                counter,
                turns,
                body,
            } => self.next_turn(counter, turns, body),
            Instr::IfZero(target) => self.branch(target),
            Instr::Jump(target) => self.jump(target),
            Instr::Halt => CellStep::Halted,
        }
    }

    /// Pushes a word.
    fn push(&mut self, word: Word) -> CellStep
        requires place { HasPlace self.old }
        requires at { self.old.at + 1 < 2 ^ 32 }
        ensures moved { result ≡ CellStep.Moved }
        ensures state { let s = state_of self.old
            in state_of self.new ≡ record s { at = s.at + 1; stack = word ∷ s.stack } }
        ensures keeps { Keeps self.old self.new }
    {
        let _ = self.stack.push(word);
        self.at += 1;
        CellStep::Moved
    }

    /// Pops the top.
    fn pop(&mut self) -> Word
        requires { HasWords 1 self.old }
        ensures stack { reverse self.old.stack.items ≡ result ∷ reverse self.new.stack.items }
        ensures len { vec_len self.new.stack + 1 ≡ vec_len self.old.stack }
        ensures place { HasPlace self.new }
        ensures capacity { vec_capacity self.new.stack ≡ vec_capacity self.old.stack }
        ensures rest { self.new ≡ record self.old { stack = self.new.stack } }
    {
        self.stack.pop().unwrap()
    }

    fn load(&mut self, word: u16) -> CellStep
        requires place { HasPlace self.old }
        requires word { word < vec_len self.old.words }
        requires at { self.old.at + 1 < 2 ^ 32 }
        ensures moved { result ≡ CellStep.Moved }
        ensures row { row_here self.old (I.Load word) ≡ Moves (state_of self.new) }
        ensures keeps { Keeps self.old self.new }
    {
        let word = self.words[usize::from(word)];
        self.push(word)
    }

    fn counter(&mut self, counter: u8) -> CellStep
        requires place { HasPlace self.old }
        requires counter { counter < vec_len self.old.counters }
        requires at { self.old.at + 1 < 2 ^ 32 }
        ensures moved { result ≡ CellStep.Moved }
        ensures row { row_here self.old (I.Counter counter) ≡ Moves (state_of self.new) }
        ensures keeps { Keeps self.old self.new }
    {
        let value = self.counters[usize::from(counter)];
        self.push(Word::Num(i64::from(value)))
    }

    fn load_at(&mut self, base: u16, len: u16, line: u32) -> CellStep
        requires operand { HasWords 1 self.old }
        requires array { base + len ≤ vec_len self.old.words }
        requires at { self.old.at + 1 < 2 ^ 32 }
        ensures moved { result ≡ CellStep.Moved }
        ensures row { row_here self.old (I.LoadAt base len line) ≡ Moves (state_of self.new) }
        ensures keeps { Keeps self.old self.new }
    {
        let index = self.pop();
        let word = self.element(base, len, index, line);
        self.push(word)
    }

    /// The element at an index of an array, or the fault in its place.
    fn element(&self, base: u16, len: u16, index: Word, line: u32) -> Word
        requires { base + len ≤ vec_len self.now.words }
        ensures { result ≡ element (state_of self.now).held base len index self.now.cell line }
    {
        match index {
            Word::Fault(fault) => Word::Fault(fault),
            Word::Num(number) => match index_below(number, len) {
                Some(index) => self.words[usize::from(base) + usize::from(index)],
                None => Word::Fault(self.outside(line)),
            },
        }
    }

    /// The fault of an index outside its array.
    fn outside(&self, line: u32) -> Fault
        ensures { result ≡ record { kind = Kind.X; cell = self.now.cell; line = line } }
    {
        Fault {
            kind: Kind::X,
            cell: self.cell,
            line,
        }
    }

    fn negate(&mut self, line: u32) -> CellStep
        requires operand { HasWords 1 self.old }
        requires at { self.old.at + 1 < 2 ^ 32 }
        ensures moved { result ≡ CellStep.Moved }
        ensures row { row_here self.old (I.Neg line) ≡ Moves (state_of self.new) }
        ensures keeps { Keeps self.old self.new }
    {
        let a = self.pop();
        self.push(negate(a, self.cell, line))
    }

    fn apply(&mut self, op: Op, line: u32) -> CellStep
        requires operands { HasWords 2 self.old }
        requires at { self.old.at + 1 < 2 ^ 32 }
        ensures moved { result ≡ CellStep.Moved }
        ensures row { row_here self.old (I.Bin op line) ≡ Moves (state_of self.new) }
        ensures keeps { Keeps self.old self.new }
    {
        let b = self.pop();
        let a = self.pop();
        self.push(apply(op, a, b, self.cell, line))
    }

    fn store(&mut self, word: u16) -> CellStep
        requires operand { HasWords 1 self.old }
        requires word { word < vec_len self.old.words }
        requires at { self.old.at + 1 < 2 ^ 32 }
        ensures moved { result ≡ CellStep.Moved }
        ensures row { row_here self.old (I.Store word) ≡ Moves (state_of self.new) }
        ensures keeps { Keeps self.old self.new }
    {
        let value = self.pop();
        self.words[usize::from(word)] = value;
        self.at += 1;
        CellStep::Moved
    }

    fn store_at(&mut self, base: u16, len: u16, line: u32) -> CellStep
        requires operands { HasWords 2 self.old }
        requires array { base + len ≤ vec_len self.old.words }
        requires at { self.old.at + 1 < 2 ^ 32 }
        ensures moved { result ≡ CellStep.Moved }
        ensures row { row_here self.old (I.StoreAt base len line) ≡ Moves (state_of self.new) }
        ensures keeps { Keeps self.old self.new }
    {
        let value = self.pop();
        let index = self.pop();
        self.set_element(base, len, index, value, line);
        self.at += 1;
        CellStep::Moved
    }

    /// Stores a value at an index of an array, or breaks the cell.
    fn set_element(&mut self, base: u16, len: u16, index: Word, value: Word, line: u32)
        requires { base + len ≤ vec_len self.old.words }
        ensures held { (state_of self.new).held
            ≡ with_element (state_of self.old).held base len index value self.old.cell line }
        ensures rest { self.new ≡ record self.old { words = self.new.words; kept = self.new.kept } }
    {
        match index {
            Word::Fault(fault) => self.kept = first_kept(self.kept, fault),
            Word::Num(number) => match index_below(number, len) {
                Some(index) => self.words[usize::from(base) + usize::from(index)] = value,
                None => self.kept = first_kept(self.kept, self.outside(line)),
            },
        }
    }

    fn write<P: Port>(&mut self, message: u16, port: &mut P) -> CellStep
        requires operand { HasWords 1 self.old }
        requires at { self.old.at + 1 < 2 ^ 32 }
        ensures row { Does P.room P.first P.wrote P.gave (row_here self.old (I.Write message))
            (state_of self.old) (state_of self.new) port.old port.new result }
        ensures keeps { Keeps self.old self.new }
    {
        let value = self.pop();
        if !port.write(message, given(self.kept, value)) {
            let _ = self.stack.push(value);
            return CellStep::WaitsWrite(message);
        }
        self.at += 1;
        CellStep::Moved
    }

    fn read<P: Port>(&mut self, message: u16, word: u16, port: &mut P) -> CellStep
        requires word { word < vec_len self.old.words }
        requires at { self.old.at + 1 < 2 ^ 32 }
        ensures row { Does P.room P.first P.wrote P.gave (row_here self.old (I.Read message word))
            (state_of self.old) (state_of self.new) port.old port.new result }
        ensures keeps { Keeps self.old self.new }
    {
        match port.read(message) {
            None => CellStep::WaitsRead(message),
            Some(value) => {
                self.words[usize::from(word)] = value;
                self.at += 1;
                CellStep::Moved
            }
        }
    }

    fn take(&mut self, word: u16) -> CellStep
        requires word { word < vec_len self.old.words }
        requires input { self.old.taken < vec_len self.old.input }
        requires at { self.old.at + 1 < 2 ^ 32 }
        ensures moved { result ≡ CellStep.Moved }
        ensures row { row_here self.old (I.Take word) ≡ Moves (state_of self.new) }
        ensures keeps { Keeps self.old self.new }
    {
        let number = self.input[self.taken];
        self.words[usize::from(word)] = Word::Num(number);
        self.taken += 1;
        self.at += 1;
        CellStep::Moved
    }

    fn emit(&mut self) -> CellStep
        requires operand { HasWords 1 self.old }
        requires room { vec_len self.old.output < vec_capacity self.old.output }
        requires at { self.old.at + 1 < 2 ^ 32 }
        ensures moved { result ≡ CellStep.Moved }
        ensures row { row_here self.old I.Emit ≡ Moves (state_of self.new) }
        ensures keeps { Keeps self.old self.new }
    {
        let value = self.pop();
        let _ = self.output.push(given(self.kept, value));
        self.at += 1;
        CellStep::Moved
    }

    fn begin_loop(&mut self, counter: u8, turns: u32, exit: u32) -> CellStep
        requires counter { counter < vec_len self.old.counters }
        requires at { self.old.at + 1 < 2 ^ 32 }
        ensures moved { result ≡ CellStep.Moved }
        ensures row { row_here self.old (I.Loop counter turns exit) ≡ Moves (state_of self.new) }
        ensures keeps { Keeps self.old self.new }
    {
        self.counters[usize::from(counter)] = 0;
        self.at = choose(turns == 0, exit, self.at + 1);
        CellStep::Moved
    }

    fn next_turn(&mut self, counter: u8, turns: u32, body: u32) -> CellStep
        requires counter { counter < vec_len self.old.counters }
        requires at { self.old.at + 1 < 2 ^ 32 }
        ensures moved { result ≡ CellStep.Moved }
        ensures row { row_here self.old (I.Next counter turns body) ≡ Moves (state_of self.new) }
        ensures keeps { Keeps self.old self.new }
    {
        let value = grown(self.counters[usize::from(counter)], turns);
        self.counters[usize::from(counter)] = value;
        self.at = choose(value < turns, body, self.at + 1);
        CellStep::Moved
    }

    fn branch(&mut self, target: u32) -> CellStep
        requires operand { HasWords 1 self.old }
        requires at { self.old.at + 1 < 2 ^ 32 }
        ensures moved { result ≡ CellStep.Moved }
        ensures row { row_here self.old (I.IfZero target) ≡ Moves (state_of self.new) }
        ensures keeps { Keeps self.old self.new }
    {
        let test = self.pop();
        self.at = choose(takes_first(self.kept, test), self.at + 1, target);
        self.test(test);
        CellStep::Moved
    }

    /// Tests a word: its fault breaks the cell.
    fn test(&mut self, word: Word)
        ensures state { let s = state_of self.old in state_of self.new ≡ record s { held = tested s.held word } }
        ensures keeps { Keeps self.old self.new }
    {
        if let Word::Fault(fault) = word {
            self.kept = first_kept(self.kept, fault);
        }
    }

    fn jump(&mut self, target: u32) -> CellStep
        ensures moved { result ≡ CellStep.Moved }
        ensures row { row_here self.old (I.Jump target) ≡ Moves (state_of self.new) }
        ensures keeps { Keeps self.old self.new }
    {
        self.at = target;
        CellStep::Moved
    }
}
