//! Faults of a node, before their place is known.

ghost use Rattle.std.specs.Prelude.{◌≡◌, ◌≢◌, IfErr, OnOk, Err, Ok, ◌∷◌, []};
ghost use Rattle.pattern_types.specs.declared.fault.Fault.TheVariants.{Memory};
ghost use Rattle.pattern_types.specs.Judged.{fault_of, demand, refusal_at};

use crate::refusal::{Rule, Spot, TypeLimit, TypeRefusal};
use lift_tree::place::Place;
use size_arith::PolyNo;
use std::alloc::{AllocError, Global};

/// What is wrong at a node or an input.
#[derive(Clone, Copy)]
pub enum Fault {
    Breaks(Rule),
    Passes(TypeLimit, u128),
    Memory,
}

/// A fault of the node at a place.
#[derive(Drop)]
pub struct NodeFault {
    pub place: Place,
    pub fault: Fault,
}

impl From<AllocError> for Fault {
    ghost from_gives = { λ _ f. f ≡ Memory };

    fn from(_error: AllocError) -> Fault {
        Fault::Memory
    }
}

impl From<PolyNo> for Fault {
    ghost from_gives = { λ no f. f ≡ fault_of no };

    fn from(no: PolyNo) -> Fault {
        match no {
            PolyNo::Terms(n) => Fault::Passes(TypeLimit::Terms, n as u128),
            PolyNo::Degree(n) => Fault::Passes(TypeLimit::Degree, n as u128),
            PolyNo::Coefficient(n) => Fault::Passes(TypeLimit::Coefficient, n),
            PolyNo::Memory => Fault::Memory,
        }
    }
}

impl Fault {
    /// The refusal for this fault of the spot.
    pub fn at(self, spot: Spot) -> TypeRefusal
        ensures { result ≡ refusal_at spot self }
    {
        match self {
            Fault::Breaks(rule) => TypeRefusal::IllTyped { spot, rule },
            Fault::Passes(which, count) => TypeRefusal::Limit { which, spot, count },
            Fault::Memory => TypeRefusal::Memory,
        }
    }

    /// The fault, of a term's own root.
    pub fn of_root(self, alloc: Global) -> NodeFault
        ensures { result ≡ record { place = []; fault = self } }
    {
        NodeFault {
            place: Place::new(Vec::new(alloc)),
            fault: self,
        }
    }
}

impl NodeFault {
    /// The fault, of the child of this number. It becomes want of memory where there is none for
    /// the place.
    pub fn under(self, alloc: Global, number: u32) -> NodeFault
        ensures { result.fault ≢ Memory → result
            ≡ record { place = number ∷ self.place; fault = self.fault } }
    {
        let mut numbers = self.place.into_numbers();
        match numbers.insert(0, number) {
            Ok(()) => NodeFault {
                place: Place::new(numbers),
                fault: self.fault,
            },
            Err(_) => Fault::Memory.of_root(alloc),
        }
    }
}

/// Refuses by the rule unless the demand is met.
pub fn demanded(is_met: bool, rule: Rule) -> Result<(), Fault>
    ensures ok { OnOk result (demand is_met rule ≡ Ok tt) }
    ensures refused { IfErr result (λ f. demand is_met rule ≡ Err f) }
{
    if is_met {
        Ok(())
    } else {
        Err(Fault::Breaks(rule))
    }
}
