ghost use Rattle.std.specs.Prelude.{◌≡◌, ◌++◌, OnOk};
ghost use Rattle.std.specs.Fmt.{decimal};
ghost use Rattle.sys_base.specs.Key.{key_text};
ghost use Rattle.cell_lexer.specs.Forms.{mark_text};
ghost use Rattle.cell_tree.specs.Pieces.{joined, after, line};

use cell_lexer::{Key, Mark};
use itoa::Buffer;
use sys_base::Memory;

/// Writes a word after some white space.
pub fn write_word(out: &mut Vec<u8>, gap: &[u8], word: &[u8]) -> Result<(), Memory>
    ensures { OnOk result (out.new.items ≡ out.old.items ++ joined (after gap.now word.now)) }
{
    out.extend_from_slice(gap)?;
    out.extend_from_slice(word)?;
    Ok(())
}

/// Writes a mark after some white space.
pub fn write_mark(out: &mut Vec<u8>, gap: &[u8], mark: Mark) -> Result<(), Memory>
    ensures { OnOk result (out.new.items ≡ out.old.items ++ joined (after gap.now (mark_text mark))) }
{
    write_word(out, gap, mark.text())
}

/// Writes a keyword after some white space.
pub fn write_key(out: &mut Vec<u8>, gap: &[u8], key: Key) -> Result<(), Memory>
    ensures { OnOk result (out.new.items ≡ out.old.items ++ joined (after gap.now (key_text key))) }
{
    write_word(out, gap, key.text().as_bytes())
}

/// Writes a number after some white space.
pub fn write_number(out: &mut Vec<u8>, gap: &[u8], number: u64) -> Result<(), Memory>
    ensures { OnOk result (out.new.items ≡ out.old.items ++ joined (after gap.now (decimal number))) }
{
    let mut buffer = Buffer::new();
    write_word(out, gap, buffer.format(number).as_bytes())
}

/// Writes the first word of a line that is inside this many open blocks.
pub fn write_line(out: &mut Vec<u8>, depth: usize, word: &[u8]) -> Result<(), Memory>
    ensures { OnOk result (out.new.items ≡ out.old.items ++ joined (after (line depth) word.now)) }
{
    out.push(b'\n')?;
    for _ in 0..depth {
        out.extend_from_slice(b"  ")?;
    }
    out.extend_from_slice(word)?;
    Ok(())
}

/// Writes a mark that begins a line inside this many open blocks.
pub fn write_mark_line(out: &mut Vec<u8>, depth: usize, mark: Mark) -> Result<(), Memory>
    ensures { OnOk result (out.new.items ≡ out.old.items ++ joined (after (line depth) (mark_text mark))) }
{
    write_line(out, depth, mark.text())
}

/// Writes a keyword that begins a line inside this many open blocks.
pub fn write_key_line(out: &mut Vec<u8>, depth: usize, key: Key) -> Result<(), Memory>
    ensures { OnOk result (out.new.items ≡ out.old.items ++ joined (after (line depth) (key_text key))) }
{
    write_line(out, depth, key.text().as_bytes())
}
