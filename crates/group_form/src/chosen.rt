//! Which maps of a map over work-groups need no loop, where the script fixes a local size.

ghost use Rattle.std.specs.Prelude.{◌≡◌, ◌==◌, pos};
ghost use Rattle.std.specs.List.{list_all};
ghost use Rattle.std.specs.Ordering.{int_eq};
ghost use Rattle.group_form.specs.ChosenForms as forms;
ghost use Rattle.group_form.specs.ChosenForms.{form_of, forms_by};

use size_arith::{Names, Poly};

/// By which statement a map's turns are made.
#[derive(Clone, Copy)]
pub enum MapForm {
    /// By a loop.
    Looped,
    /// By an `if`, of which a work-item takes one turn at most.
    Guarded,
    /// By none: each work-item takes just one turn.
    Alone,
}

// Whether a coefficient is this number.
fn is_number(coefficient: i128, number: u32) -> bool
    ensures { result ≡ int_eq coefficient (pos number) }
{
    coefficient == i128::from(number)
}

// Whether no base name has a power.
fn is_constant(powers: &[u8; 8]) -> bool
    ensures { result ≡ list_all (λ power. power == 0) powers.now }
{
    powers.iter().all(|power| *power == 0)
}

// Whether the length is this number, whatever the sizes.
fn is_literal(number: u32, length: &Poly) -> bool
    ensures { result ≡ forms.is_literal number length.now }
{
    match length.as_slice() {
        [monomial] => is_number(monomial.coefficient, number) && is_constant(&monomial.powers),
        _ => false,
    }
}

/// The form of a local map of this length: its turn alone where the length is the local size that
/// is fixed, an `if` where it is shown to be no longer, else a loop.
pub fn local_form(names: &Names, local: Option<u32>, length: &Poly) -> MapForm
    ensures { form_of result ≡ (forms_by names.now local).local length.now }
{
    match local {
        Some(size) => {
            if is_literal(size, length) {
                MapForm::Alone
            } else if length.largest(names) <= u128::from(size) {
                MapForm::Guarded
            } else {
                MapForm::Looped
            }
        }
        None => MapForm::Looped,
    }
}

/// Whether a map over so many work-groups is an `if`, where a loop has no other turn: over one,
/// where a local size is fixed.
pub fn is_over_one(names: &Names, local: Option<u32>, length: &Poly) -> bool
    ensures { result ≡ (forms_by names.now local).once length.now }
{
    match local {
        Some(_) => is_literal(1, length),
        None => false,
    }
}
