//! The images that the tests run, and their inputs.
ghost use Rattle.std.specs.Prelude.{◌≡◌, length, map, IfOk};
ghost use Rattle.cell_code.specs.Images.{IsShaped};
ghost use Rattle.array_model.specs.Runs.{IsSure};
ghost use Rattle.array_model.specs.States.{IsCounted, cells};
ghost use Rattle.array_sim.specs.Simulations.{inputs_of};

use accept::{AcceptError, build, images_do_as_they_say, one_image};
use cell_code::{CellImage, Image};
use std::alloc::Global;
use std::test::Fail;
use sys_base::{Inputs, Items};

/// The image of a source that is accepted.
pub fn image(alloc: Global, source: &[u8]) -> Result<Image, Fail>
    ensures shaped { IfOk result IsShaped }
    ensures sure { IfOk result (λ image. IsSure image image.buffer) }
{
    one_image();
    images_do_as_they_say();
    match build(alloc, source) {
        Ok(built) => Ok(built.image),
        Err(AcceptError::Memory) => Err("out of memory".into()),
        Err(AcceptError::Refused(_)) => Err("refused".into()),
    }
}

/// The inputs of an image whose first cell takes these words, and whose other cells take none.
pub fn inputs(alloc: Global, image: &Image, first: &[i64]) -> Result<Inputs, Fail>
    requires { IsShaped image.now }
    ensures lists { IfOk result (λ inputs. length inputs.cells ≡ cells image.now) }
    ensures counted { IfOk result (λ inputs. IsCounted image.now (inputs_of inputs.cells)) }
{
    let cells = lists(alloc, image.cells.as_slice(), first)?;
    Ok(Inputs { cells })
}

/// A list for each cell, as long as what the cell takes: these words for the first one, and no words for the others.
fn lists(alloc: Global, cells: &[CellImage], first: &[i64]) -> Result<Items<Items<i64>>, Fail>
    ensures { IfOk result (λ lists. map length lists ≡ map (λ c. c.takes) cells.now) }
{
    let mut lists = Items::new(alloc);
    for cell in cells {
        let words = if lists.is_empty() { first } else { &[] };
        if words.len() as u64 != u64::from(cell.takes) {
            return Err("not as many words as the cell takes".into());
        }
        lists.push(Items::from_slice(alloc, words)?)?;
    }
    Ok(lists)
}
