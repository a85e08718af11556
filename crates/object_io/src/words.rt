ghost use Rattle.std.specs.Prelude.{◌≡◌, ◌++◌, [], ◌∷◌, OnOk, codes, map};
ghost use Rattle.std.specs.Fmt.{decimal};
ghost use Rattle.object_io.specs.Objects.{line, spaced, numbers};

use itoa::Buffer;
use sys_base::Memory;

/// Writes a word.
pub fn write_word(out: &mut Vec<u8>, word: &[u8]) -> Result<(), Memory>
    ensures { OnOk result (out.new.items ≡ out.old.items ++ word.now) }
{
    out.extend_from_slice(word)?;
    Ok(())
}

/// Writes a number in decimal.
pub fn write_number(out: &mut Vec<u8>, number: u64) -> Result<(), Memory>
    ensures { OnOk result (out.new.items ≡ out.old.items ++ decimal number) }
{
    let mut buffer = Buffer::new();
    write_word(out, buffer.format(number).as_bytes())
}

/// Writes a word after a space.
pub fn write_next_word(out: &mut Vec<u8>, word: &[u8]) -> Result<(), Memory>
    ensures { OnOk result (out.new.items ≡ out.old.items ++ spaced (word.now ∷ [])) }
{
    out.push(b' ')?;
    write_word(out, word)
}

/// Writes a number in decimal after a space.
pub fn write_next_number(out: &mut Vec<u8>, number: u64) -> Result<(), Memory>
    ensures { OnOk result (out.new.items ≡ out.old.items ++ spaced (decimal number ∷ [])) }
{
    out.push(b' ')?;
    write_number(out, number)
}

/// Writes a word and a number, each after a space.
pub fn write_field(out: &mut Vec<u8>, name: &[u8], number: u64) -> Result<(), Memory>
    ensures { OnOk result (out.new.items ≡ out.old.items ++ spaced (name.now ∷ decimal number ∷ [])) }
{
    write_next_word(out, name)?;
    write_next_number(out, number)
}

/// Writes numbers in decimals, each after a space.
pub fn write_numbers(out: &mut Vec<u8>, ns: &[u64]) -> Result<(), Memory>
    ensures { OnOk result (out.new.items ≡ out.old.items ++ numbers ns.now) }
{
    for number in ns {
        write_next_number(out, *number)?;
    }
    Ok(())
}

/// Writes a line of a word and numbers.
pub fn write_line(out: &mut Vec<u8>, word: &[u8], ns: &[u64]) -> Result<(), Memory>
    ensures { OnOk result (out.new.items ≡ out.old.items ++ line word.now (map decimal ns.now)) }
{
    write_word(out, word)?;
    write_numbers(out, ns)?;
    out.push(b'\n')?;
    Ok(())
}
