//! Laws of printed kernels and the kernel grammar, each carried by a function that does nothing.

ghost use Rattle.printed_form.specs.KernelGrammar.{KernelsAreOfTheGrammar};
ghost use Rattle.printed_form.specs.GrammarPieces.{ArraysCanBeDeclared, MapsAreOfTheGrammar, TermsArePrintedWithin, ViewsStayWithin};

/// What the printer makes of a typed term is a kernel of the kernel grammar, where the term's
/// numbers are words, its lengths are spelled in the grammar, and layouts, elements and loops don't
/// nest too deep.
pub fn kernels_are_of_the_grammar()
    ensures { KernelsAreOfTheGrammar }
{}

/// What stands for a value stays within the kernel grammar: in more loops, side by side, by its
/// parts, through a layout, at what stands for a turn; and declared arrays stand within it.
pub fn views_stay_within()
    ensures { ViewsStayWithin }
{}

/// The statements of a map are of the kernel grammar: the loads of an element that reads within it,
/// and a loop or an `if`, where its body is.
pub fn maps_are_of_the_grammar()
    ensures { MapsAreOfTheGrammar }
{}

/// What is printed of an argument, or of a term in writing position, is of the kernel grammar,
/// where the term's numbers are words, its lengths are spelled, and nothing nests too deep; and so
/// is a kernel that declares the term's arrays, where its code is.
pub fn terms_are_printed_within()
    ensures { TermsArePrintedWithin }
{}

/// The arrays of the copies of such a term can be declared.
pub fn arrays_can_be_declared()
    ensures { ArraysCanBeDeclared }
{}
