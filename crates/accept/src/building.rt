ghost use Rattle.std.specs.Prelude.{◌≡◌, ◌≤◌, [], length, IfOk, IfErr};
ghost use Rattle.cell_tree.specs.Printable.{IsPrintable};
ghost use Rattle.cell_types.specs.Faults.{faults};
ghost use Rattle.cell_types.specs.Resolved.{program_of};
ghost use Rattle.cell_types.specs.Typed.{plain};
ghost use Rattle.accept.specs.bodies.Answers.{IsFaultTold, IsProgramOf, IsUnread};
ghost use Rattle.accept.specs.Built.{DoesAsItSays, IsBuilt, IsRefused};
ghost use Rattle.accept.specs.Source.{IsSource};

use crate::imaging::imaged;
use crate::judging::judged;
use crate::laws::{accepted_programs_are_faithful, code_laws_below, laws_below};
use crate::static_faults::static_refusal;
use cell_code::Image;
use cell_lexer::tokens;
use cell_parser::parse;
use cell_tree::Source;
use cell_types::{Program, resolve};
use comm_sequence::Comm;
use refusals::Refusal;
use std::alloc::Global;
use sys_base::{Items, SOURCE_BYTES};

/// Why nothing is made of a source.
#[derive(Debug, Drop)]
pub enum AcceptError {
    /// The first refusal of the source.
    Refused(Refusal),
    /// Memory ran out, which may happen to any source.
    Memory,
}

/// What is made of a source that is accepted.
#[derive(Debug, Drop)]
pub struct Built {
    /// The source with its names resolved.
    pub program: Program,
    /// All writes and reads in the order in which they are crossed off, which is an order for the program's buffer
    /// (`docs/model.md`, "Crossing-off").
    pub order: Items<Comm>,
    /// What an array runs: messages with their labels and lengths, links with their groups, cells with their code, and
    /// the bound on the steps, at most `STEPS` (`docs/formats.md`, "Objects").
    pub image: Image,
}

/// What is made of a source without a refusal, or its first refusal (`docs/refusals.md`). The text may be any bytes.
///
/// For every input, every run of the image at every capacity from one and from the program's buffer on takes at most
/// the bound's steps, is never stuck before its end, and emits what the program means (`docs/runs.md`, "The image of a
/// program").
///
/// The time is linear in the length of the text, in the steps that its cells take at most and in the lengths of the
/// routes, but for a logarithm of the number of messages; proposing labels adds at most two million steps.
pub fn build(alloc: Global, text: &[u8]) -> Result<Built, AcceptError>
    ensures faithful { IfOk result (λ b. DoesAsItSays (plain b.program) b.image) }
    ensures built { IfOk result (IsBuilt text.now) }
    ensures refused { IfErr result (IsRefused text.now) }
{
    laws_below();
    code_laws_below();
    accepted_programs_are_faithful();
    let program = program_in(alloc, text)?;
    let accepted = judged(alloc, program)?;
    Ok(imaged(alloc, accepted)?)
}

/// The program of the source that a text is, or the first refusal of the text and of its source.
pub(crate) fn program_in(alloc: Global, text: &[u8]) -> Result<Program, AcceptError>
    ensures program { IfOk result (λ p. IsProgramOf text.now (plain p)) }
    ensures refused { IfErr result (IsUnread text.now) }
{
    if text.len() > SOURCE_BYTES {
        return Err(AcceptError::Refused(Refusal::LongSource));
    }
    laws_below();
    let source = read(alloc, text)?;
    resolved(alloc, source)
}

/// The source that a text is, or its first refusal.
fn read(alloc: Global, text: &[u8]) -> Result<Source, AcceptError>
    requires { length text.now ≤ SOURCE_BYTES }
    ensures source { IfOk result (IsSource text.now) }
    ensures printable { IfOk result IsPrintable }
    ensures refused { IfErr result (IsUnread text.now) }
{
    laws_below();
    let tokens = tokens(alloc, text)?;
    Ok(parse(alloc, text, &tokens)?)
}

/// The program of a source without static faults, or the refusal of the first one.
fn resolved(alloc: Global, source: Source) -> Result<Program, AcceptError>
    requires { IsPrintable source }
    ensures program { IfOk result (λ p. (faults source ≡ []) × (plain p ≡ program_of source)) }
    ensures fault { IfErr result (IsFaultTold source) }
{
    let cols = source.cols;
    match resolve(alloc, source) {
        Ok(program) => Ok(program),
        Err(fault) => Err(AcceptError::Refused(static_refusal(cols, fault)?)),
    }
}
