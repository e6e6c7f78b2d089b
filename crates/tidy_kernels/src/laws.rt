//! A law of tidied kernels, carried by a function that does nothing.

ghost use Rattle.tidy_kernels.specs.Laws.{TidiedKernelsAreKernels};

/// A kernel of the kernel grammar stays one, where indices and bounds become none that are larger.
pub fn tidied_kernels_are_kernels()
    ensures { TidiedKernelsAreKernels }
{}
