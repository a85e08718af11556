ghost use Rattle.std.specs.Prelude.{◌≡◌, IfErr, IfOk, OnOk, position, not, is_some};
ghost use Rattle.serde_json.specs.View.{view};
ghost use Rattle.stream_io.specs.Reading.{AllGood, IsGood, first_other, integer_of};
ghost use Rattle.stream_io.specs.Checking.{BreaksMember, BreaksSome, entries_list};
ghost use Rattle.stream_io.specs.declared.error.InputError.TheVariants.{Memory};

use crate::error::InputError;
use crate::keys::is_key;
use serde_json::{Map, Value};
use std::alloc::Global;
use sys_base::{Grid, Items};

/// Checks each member in the order of the keys: its key names a cell, and its value is a list of integers.
pub(crate) fn check_members(
    alloc: Global,
    map: &Map<String, Value>,
    grid: &Grid,
) -> Result<(), InputError>
    ensures good { OnOk result (AllGood grid.now (entries_list map.now.entries)) }
    ensures broken { IfErr result (BreaksSome grid.now (entries_list map.now.entries)) }
{
    for (key, value) in map {
        check_member(alloc, key.as_str(), value, grid)?;
    }
    Ok(())
}

/// Checks one member.
fn check_member(alloc: Global, key: &str, value: &Value, grid: &Grid) -> Result<(), InputError>
    ensures good { OnOk result (IsGood grid.now key.now (view value.now)) }
    ensures broken { IfErr result (BreaksMember grid.now key.now (view value.now)) }
{
    if !is_key(alloc, grid, key)? {
        return Err(InputError::UnknownCell {
            key: bytes_of(alloc, key)?,
        });
    }
    if !value.is_array() {
        return Err(InputError::NotList {
            key: bytes_of(alloc, key)?,
        });
    }
    match first_other(value) {
        Some(place) => {
            let Ok(at) = u32::try_from(place) else {
                return Err(InputError::Memory);
            };
            Err(InputError::NotInteger {
                key: bytes_of(alloc, key)?,
                at,
            })
        }
        None => Ok(()),
    }
}

/// The bytes of a text.
fn bytes_of(alloc: Global, text: &str) -> Result<Items<u8>, InputError>
    ensures ok { IfOk result (λ bytes. bytes ≡ text.now) }
    ensures err { IfErr result (λ e. e ≡ Memory) }
{
    Ok(Items::from_slice(alloc, text.as_bytes())?)
}

/// The place of the first item of a list that is no integer of 64 bits.
fn first_other(value: &Value) -> Option<usize>
    ensures { result ≡ first_other (view value.now) }
{
    match value.as_array() {
        Some(list) => other_among(list),
        None => None,
    }
}

/// The place of the first of some items that is no integer of 64 bits.
fn other_among(list: &[Value]) -> Option<usize>
    ensures { result ≡ position (λ v. not (is_some (integer_of (view v)))) list.now }
{
    list.iter().position(|item| item.as_i64().is_none())
}
