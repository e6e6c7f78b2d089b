//! The lists of a type, and where they hold the parts of a value.

ghost use Rattle.std.specs.Prelude.{◌≡◌, ◌+◌, ◌++◌, ◌*◌, ◌<◌, ◌≤◌, ◌^◌, get_or, length, map, replicate, IfOk, OnOk};
ghost use Rattle.lift_tree.specs.Types.{ty_of};
ghost use Rattle.value_lists.specs.Lists.{length_at, list_lengths, row, width, IsSmall};

use lift_tree::ty::Ty;
use size_arith::{Poly, Sizes};
use std::alloc::{AllocError, Global};

/// How many components the type has.
pub fn width(ty: &Ty) -> usize
    requires { width (ty_of ty.now) < 2 ^ 64 }
    ensures { result ≡ width (ty_of ty.now) }
{
    match ty {
        Ty::Number | Ty::Vector => 1,
        Ty::Pair(a, b) => width(a) + width(b),
        Ty::Array(element, _) => width(element),
    }
}

// Adds a list of 0 for each component of so many values of the type at these sizes.
#[tactic(auto, using(crate::proofs::Blank::added))]
fn add_blanks(
    alloc: Global,
    ty: &Ty,
    sizes: &Sizes,
    count: usize,
    lists: &mut Vec<Vec<u32>>,
) -> Result<(), AllocError>
    requires { IsSmall sizes.now count (ty_of ty.now) }
    ensures { OnOk result (map (λ l. l.items) lists.new.items
        ≡ map (λ l. l.items) lists.old.items
        ++ map (λ n. replicate (count * n) 0) (list_lengths sizes.now (ty_of ty.now))) }
{
    match ty {
        Ty::Number => {
            lists.push(vec![in alloc; 0u32; count]?)?;
            Ok(())
        }
        Ty::Vector => {
            lists.push(vec![in alloc; 0u32; count * 4]?)?;
            Ok(())
        }
        Ty::Pair(a, b) => {
            add_blanks(alloc, a, sizes, count, lists)?;
            add_blanks(alloc, b, sizes, count, lists)
        }
        Ty::Array(element, length) => {
            add_blanks(
                alloc,
                element,
                sizes,
                count * length_at(length, sizes),
                lists,
            )
        }
    }
}

/// Lists of 0 for a value of the type at these sizes, one for each component.
#[tactic(auto, using(crate::proofs::Blank::added))]
pub fn blank_lists(alloc: Global, ty: &Ty, sizes: &Sizes) -> Result<Vec<Vec<u32>>, AllocError>
    requires { IsSmall sizes.now 1 (ty_of ty.now) }
    ensures { IfOk result (λ lists. map (λ l. l.items) lists.items
        ≡ map (λ n. replicate n 0) (list_lengths sizes.now (ty_of ty.now))) }
{
    let mut lists = Vec::new(alloc);
    add_blanks(alloc, ty, sizes, 1, &mut lists)?;
    Ok(lists)
}

/// The number of this number in the list of the component, or 0.
#[inline(always)]
pub fn number_in(lists: &[Vec<u32>], component: usize, number: usize) -> u32
    requires { component < length lists.now }
    ensures { result ≡ get_or (row (map (λ l. l.items) lists.now) component) number 0 }
{
    lists[component].get(number).copied().unwrap_or(0)
}

/// The length at these sizes.
pub fn length_at(length: &Poly, sizes: &Sizes) -> usize
    requires { length_at sizes.now length.now < 2 ^ 32 }
    ensures { result ≡ length_at sizes.now length.now }
{
    length.value_at(sizes).unsigned_abs() as usize
}

/// The number of an element among those of all arrays before it, each of this length.
#[tactic(auto, using(crate::proofs::Small::indexing))]
pub fn element_number(number: usize, length: usize, index: usize) -> usize
    requires within { index < length }
    requires few { (number + 1) * length ≤ 2 ^ 32 }
    ensures { result ≡ number * length + index }
{
    number * length + index
}
