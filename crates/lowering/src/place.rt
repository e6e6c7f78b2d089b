//! What a term stands for where it is, and so for what its children do.

ghost use Rattle.std.specs.Prelude.{◌≡◌, if◌then◌else◌};
ghost use Rattle.lift_ir.specs.Lowering as spec;
ghost use Rattle.lift_tree.specs.declared.term.UnaryForm.TheVariants as unary;
ghost use Rattle.lift_tree.specs.Types.{ty_of};
ghost use Rattle.lowering.specs.Places.{place_of};

use lift_tree::term::{BinaryForm, UnaryForm};
use lift_tree::ty::Ty;

/// What a term stands for.
#[derive(Clone, Copy, PartialEq, Eq)]
pub enum Place {
    /// It is written.
    Written,
    /// It is read, an argument.
    Argument,
    /// It is worked out, an element.
    Element,
}

/// Whether the type is a number, a vector, or pairs of such.
pub fn is_element(ty: &Ty) -> bool
    ensures { result ≡ spec.is_element (ty_of ty.now) }
{
    match ty {
        Ty::Number | Ty::Vector => true,
        Ty::Pair(a, b) => is_element(a) && is_element(b),
        Ty::Array(_, _) => false,
    }
}

impl Place {
    /// The place of a form's operand.
    pub fn of_operand(self, form: &UnaryForm) -> Place
        ensures { place_of result ≡ spec.operand_place form.now (place_of self) }
    {
        match form {
            UnaryForm::Div(_) | UnaryForm::Rem(_) => Place::Element,
            UnaryForm::ToPrivate | UnaryForm::ToLocal => Place::Written,
            UnaryForm::First | UnaryForm::Second => self.of_pair(),
            UnaryForm::Layout(_)
            | UnaryForm::Slide(_, _)
            | UnaryForm::Pad(_, _)
            | UnaryForm::Then => self,
        }
    }

    // The place of a pair of which one part is taken here.
    fn of_pair(self) -> Place
        ensures first { place_of result ≡ spec.operand_place unary.First (place_of self) }
        ensures second { place_of result ≡ spec.operand_place unary.Second (place_of self) }
    {
        match self {
            Place::Argument => Place::Argument,
            Place::Written | Place::Element => Place::Element,
        }
    }

    /// The place of the operands of a form of two.
    pub fn of_operands(form: BinaryForm) -> Place
        ensures { place_of result ≡ spec.binary_place form }
    {
        match form {
            BinaryForm::Zip => Place::Argument,
            BinaryForm::Operator(_) | BinaryForm::Pair | BinaryForm::Reduce(_) => Place::Element,
        }
    }

    /// The place of a let's value of this type: an element is set, an array is let.
    pub fn of_value(ty: &Ty) -> Place
        ensures { place_of result
            ≡ if spec.is_element (ty_of ty.now) then spec.Element else spec.Argument }
    {
        if is_element(ty) {
            Place::Element
        } else {
            Place::Argument
        }
    }

    /// The place of the body of a let of this type: in writing position of an
    /// element the whole let is an element.
    pub fn of_body(self, ty: &Ty) -> Place
        ensures { place_of result ≡ spec.body_place (place_of self) (ty_of ty.now) }
    {
        match self {
            Place::Written => {
                if is_element(ty) {
                    Place::Element
                } else {
                    Place::Written
                }
            }
            Place::Argument => Place::Argument,
            Place::Element => Place::Element,
        }
    }
}
