//! Making an order: the list of the variables, and the place of each in it.
ghost use Rattle.std.specs.Prelude.{◌≡◌, ℕ, ◌+◌, ◌<◌, ◌≤◌, ◌^◌, IfOk, length, slice_index, slice_index_or, false};
ghost use Rattle.std.specs.List.{All};
ghost use Rattle.sat_terms.specs.Cubes.{is_among};
ghost use Rattle.sat_terms.specs.Subjects.{IsShown};
ghost use Rattle.projected_decide.specs.Orders.{order_of, place_in};

use std::alloc::{AllocError, Global};

/// The shown variables, and then the hidden ones of 1 to `variables`, rising.
pub(crate) fn in_order(alloc: Global, variables: u32, shown: &[u32]) -> Result<Vec<u32>, AllocError>
    requires small { variables < 2 ^ 31 }
    requires shown { IsShown variables shown.now }
    ensures { IfOk result (λ order. order.items ≡ order_of variables shown.now) }
{
    let is_shown = marks_of(alloc, variables, shown)?;
    let mut order = Vec::with_capacity(alloc, variables as usize)?;
    order.extend_from_slice(shown)?;
    for below in 0..variables {
        let variable = below + 1;
        if !is_shown[variable as usize] {
            order.push(variable)?;
        }
    }
    Ok(order)
}

/// Whether each of the variables up to `variables` is a shown one, by its number. Linear in both.
pub fn marks_of(alloc: Global, variables: u32, shown: &[u32]) -> Result<Vec<bool>, AllocError>
    requires { All (λ v. v ≤ variables) shown.now }
    ensures length { IfOk result (λ marks. length marks.items ≡ variables + 1) }
    ensures marks { IfOk result (λ marks. (v : ℕ) → v ≤ variables →
        slice_index_or marks.items v false ≡ is_among shown.now v) }
{
    let mut marks = vec![in alloc; false; variables as usize + 1]?;
    for variable in shown {
        marks[*variable as usize] = true;
    }
    Ok(marks)
}

/// The first place of each of the variables up to `variables` in the order, by its number.
pub(crate) fn places_of(
    alloc: Global,
    variables: u32,
    order: &[u32],
) -> Result<Vec<u32>, AllocError>
    requires within { All (λ v. v ≤ variables) order.now }
    requires few { length order.now < 2 ^ 32 }
    ensures length { IfOk result (λ places. length places.items ≡ variables + 1) }
    ensures places { IfOk result (λ places. (v : ℕ) → v ≤ variables →
        slice_index places.items v ≡ place_in v order.now) }
{
    let mut places = vec![in alloc; order.len() as u32; variables as usize + 1]?;
    for later in 0..order.len() {
        let place = order.len() - 1 - later;
        places[order[place] as usize] = place as u32;
    }
    Ok(places)
}
