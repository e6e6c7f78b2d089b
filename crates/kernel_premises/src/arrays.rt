//! Laws of a kernel's arrays, each carried by a function that does nothing.

ghost use Rattle.kernel_premises.specs.Arrays.{AllocatedAreDeclared, DeclaredAreFew};

use crate::terms::sound_parts_are_spelled;
use printed_form::grammar::arrays_can_be_declared;

/// A term of sound parts has the arrays that are allocated for it, in their order.
pub fn allocated_are_declared()
    ensures { AllocatedAreDeclared }
{}

/// Where no limit is passed, the arrays are few and small.
pub fn declared_are_few()
    ensures { DeclaredAreFew }
{
    arrays_can_be_declared();
    sound_parts_are_spelled();
}
