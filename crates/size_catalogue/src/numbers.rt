//! The numbers of the sizes of each list.
ghost use Rattle.std.specs.Prelude.{◌≡◌, ◌<◌, ◌≤◌, vec_len, IfOk, OnOk};
ghost use Rattle.size_catalogue.specs.Numbers.{numbers_at, has_room, widened, with_number, AddsNumber, SameNumbers};

use crate::limits::MAX_LIST_SIZES;
use duct_units::NoMemory;
use std::alloc::Global;

/// Adds a number to those of a list, unless as many as a list may have stand there, and says whether it did.
///
/// The list may be the next one, which has no numbers yet.
pub fn add_number(
    alloc: Global,
    numbers: &mut Vec<Vec<u32>>,
    list: usize,
    number: u32,
) -> Result<bool, NoMemory>
    requires { list ≤ vec_len numbers.old }
    ensures value { IfOk result (λ added. added ≡ has_room (numbers_at numbers.old.items list)) }
    ensures lists { OnOk result (vec_len numbers.new ≡ widened (vec_len numbers.old) list) }
    ensures numbers { IfOk result (AddsNumber numbers.old.items numbers.new.items list number) }
{
    open_list(alloc, numbers, list)?;
    push_number(&mut numbers[list], number)
}

// Makes room for the numbers of the list where it is the next one.
fn open_list(alloc: Global, numbers: &mut Vec<Vec<u32>>, list: usize) -> Result<(), NoMemory>
    requires { list ≤ vec_len numbers.old }
    ensures there { OnOk result (list < vec_len numbers.new) }
    ensures lists { OnOk result (vec_len numbers.new ≡ widened (vec_len numbers.old) list) }
    ensures same { OnOk result (SameNumbers numbers.old.items numbers.new.items) }
{
    if list == numbers.len() {
        let none = Vec::with_capacity(alloc, MAX_LIST_SIZES)?;
        numbers.push(none)?;
    }
    Ok(())
}

fn push_number(numbers: &mut Vec<u32>, number: u32) -> Result<bool, NoMemory>
    ensures value { IfOk result (λ added. added ≡ has_room numbers.old.items) }
    ensures items { IfOk result (λ added. numbers.new.items ≡ with_number added numbers.old.items number) }
{
    if numbers.len() >= MAX_LIST_SIZES {
        return Ok(false);
    }
    numbers.push(number)?;
    Ok(true)
}
