ghost use Rattle.std.specs.Prelude.{◌≡◌, ◌++◌, [], ◌∷◌, OnOk, codes};
ghost use Rattle.std.specs.Fmt.{signed_decimal};
ghost use Rattle.object_io.specs.Objects.{instruction_line, line, op_text};

use crate::words::{write_line, write_next_word, write_word};
use cell_code::Instr;
use itoa::Buffer;
use sys_base::{Memory, Op};

/// Writes the line of an instruction.
pub fn write_instruction(out: &mut Vec<u8>, instr: Instr) -> Result<(), Memory>
    ensures { OnOk result (out.new.items ≡ out.old.items ++ instruction_line instr) }
{
    match instr {
        Instr::Push(number) => write_push(out, number),
        Instr::Load(word) => write_line(out, b"load", &[word.into()]),
        Instr::LoadAt { base, len, line } => write_line(
            out,
            b"loadat",
            &[base.into(), len.into(), line.into()],
        ),
        Instr::Counter(counter) => write_line(out, b"counter", &[counter.into()]),
        Instr::Neg { line } => write_line(out, b"neg", &[line.into()]),
        Instr::Bin { op, line } => write_line(out, op_text(op), &[line.into()]),
        Instr::Store(word) => write_line(out, b"store", &[word.into()]),
        Instr::StoreAt { base, len, line } => write_line(
            out,
            b"storeat",
            &[base.into(), len.into(), line.into()],
        ),
        Instr::Write(message) => write_line(out, b"write", &[message.into()]),
        Instr::Read { message, word } => write_line(out, b"read", &[message.into(), word.into()]),
        Instr::Take(word) => write_line(out, b"take", &[word.into()]),
        Instr::Emit => write_line(out, b"emit", &[]),
        Instr::Loop {
            counter,
            turns,
            exit,
        } => write_line(out, b"loop", &[counter.into(), turns.into(), exit.into()]),
        Instr::Next {
            counter,
            turns,
            body,
        } => write_line(out, b"next", &[counter.into(), turns.into(), body.into()]),
        Instr::IfZero(target) => write_line(out, b"ifzero", &[target.into()]),
        Instr::Jump(target) => write_line(out, b"jump", &[target.into()]),
        Instr::Halt => write_line(out, b"halt", &[]),
    }
}

/// Writes the line of a pushed number, which may have a sign.
fn write_push(out: &mut Vec<u8>, number: i64) -> Result<(), Memory>
    ensures { OnOk result (out.new.items ≡ out.old.items ++ line (codes "push") (signed_decimal number ∷ [])) }
{
    let mut buffer = Buffer::new();
    write_word(out, b"push")?;
    write_next_word(out, buffer.format(number).as_bytes())?;
    out.push(b'\n')?;
    Ok(())
}

/// How an operator is spelt.
fn op_text(op: Op) -> &'static [u8]
    ensures { result.now ≡ op_text op }
{
    match op {
        Op::Add => b"add",
        Op::Sub => b"sub",
        Op::Mul => b"mul",
        Op::Div => b"div",
        Op::Rem => b"rem",
        Op::Less => b"less",
        Op::AtMost => b"atmost",
        Op::Same => b"same",
        Op::Differ => b"differ",
    }
}
