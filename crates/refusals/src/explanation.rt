ghost use Rattle.std.specs.Prelude.{◌≡◌, ◌++◌, IfOk, OnOk, string_bytes};
ghost use Rattle.refusals.specs.Explanations.{explanation, further_lines, group_text, walk_lines};
ghost use Rattle.refusals.specs.Texts.{text_of};

use crate::refusal::Refusal;
use crate::walk::WalkLine;
use std::alloc::Global;
use sys_base::{Memory, Name};

/// The line of a refusal, without its newline.
pub fn text(alloc: Global, refusal: &Refusal) -> Result<Vec<u8>, Memory>
    ensures { IfOk result (λ text. text.items ≡ text_of refusal.now) }
{
    Ok(format!(in alloc; "{refusal}")?.into_bytes())
}

/// The explanation of a refusal: its line, and then of an E30 the lines of its walk, of an E50 the word `group` and the
/// names of the group's members in order. A newline stands after each line.
pub fn explain(alloc: Global, refusal: &Refusal) -> Result<Vec<u8>, Memory>
    ensures { IfOk result (λ text. text.items ≡ explanation refusal.now) }
{
    let mut out = format!(in alloc; "{refusal}\n")?;
    write_further_lines(&mut out, refusal)?;
    Ok(out.into_bytes())
}

/// Writes the lines of a refusal that come after its own.
fn write_further_lines(out: &mut String, refusal: &Refusal) -> Result<(), Memory>
    ensures { OnOk result (string_bytes out.new ≡ string_bytes out.old ++ further_lines refusal.now) }
{
    match refusal {
        Refusal::Crossing { walk, .. } => write_walk(out, walk.as_slice()),
        Refusal::TooFew { group, .. } => write_group(out, group.as_slice()),
        _ => Ok(()),
    }
}

/// Writes the lines of a walk.
fn write_walk(out: &mut String, walk: &[WalkLine]) -> Result<(), Memory>
    ensures { OnOk result (string_bytes out.new ≡ string_bytes out.old ++ walk_lines walk.now) }
{
    for line in walk {
        write!(out, "{line}\n")?;
    }
    Ok(())
}

/// Writes the line of a group's members.
#[tactic(auto, unfolding(crate::specs::Explanations::group_text))]
fn write_group(out: &mut String, group: &[Name]) -> Result<(), Memory>
    ensures { OnOk result (string_bytes out.new ≡ string_bytes out.old ++ group_text group.now) }
{
    write!(out, "group")?;
    for name in group {
        write!(out, " {name}")?;
    }
    write!(out, "\n")?;
    Ok(())
}
