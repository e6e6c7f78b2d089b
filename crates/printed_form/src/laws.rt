//! Laws of printed kernels, each carried by a function that does nothing.

ghost use Rattle.std.specs.Prelude.{◌≡◌, ℕ, List, length, map};
ghost use Rattle.size_arith.specs.declared.poly.Monomial.{Monomial};
ghost use Rattle.kernel_tree.specs.Code.{Kernel};
ghost use Rattle.kernel_tree.specs.Launch.{Cells, IsWhole, Launch};
ghost use Rattle.kernel_tree.specs.Alike.{Histories};
ghost use Rattle.printed_form.specs.FromHistories.{EnactsAndLeaves, WritesOutputs};
ghost use Rattle.printed_form.specs.Headline.{EveryRunKeeps};
ghost use Rattle.printed_form.specs.Theorem.{PrintedKernelsKeep};
ghost use Rattle.printed_form.specs.Alike.{PrintedKernelsAreAlike};
ghost use Rattle.printed_form.specs.PrinterLaw.{PrinterPrints};
ghost use Rattle.printed_form.specs.VectorIndices.{VectorsAreAtTheirIndices};
ghost use Rattle.printed_form.specs.Programs.{PrintedProgramsKeep, PrintedProgramsStart, ProgramsArePrinted, PrintedProgramsGoAlike};

/// The headline from one run of each start: where it goes by these histories and leaves what is
/// wanted, and the histories write each output cell once and by its owner, every run keeps the
/// headline.
pub fn one_run_keeps()
    ensures { (k : Kernel) (l : Launch) (c : Cells) (h : Histories) (owner : (array index : ℕ) → ℕ)
        (wanted : List (List ℕ))
        → IsWhole l → map length wanted ≡ map length c.outs
        → WritesOutputs l h owner wanted → EnactsAndLeaves k l c h wanted
        → EveryRunKeeps k l c owner wanted }
{}

/// Every run of a kernel that is printed for a term, by one work-item or over the launch: no fault,
/// no more events than the bound, each output cell written at most once and by its owner, and where
/// it can't go on, once, with the source value's scalar.
pub fn printed_kernels_keep()
    ensures { PrintedKernelsKeep (List Monomial) }
{}

/// Any two kernels that are printed for one term have, at one launch and from the same contents,
/// the same events with the same accesses.
pub fn printed_kernels_are_alike()
    ensures { PrintedKernelsAreAlike (List Monomial) }
{}

/// What the printer writes for a term is printed for it, at every launch.
pub fn the_printer_prints()
    ensures { PrinterPrints (List Monomial) }
{}

/// Over an array that no other layout rearranges a vector is loaded and stored at its index: the
/// loop's variable alone.
pub fn vectors_are_at_their_indices()
    ensures { VectorsAreAtTheirIndices (List Monomial) }
{}

/// At every admissible launch, on all inputs, every run of a kernel that is printed for a program's
/// typed term keeps what the kernel owes: the source value's lists, each cell by its owner.
pub fn printed_programs_keep()
    ensures { PrintedProgramsKeep }
{}

/// Such a kernel may be started there.
pub fn printed_programs_start()
    ensures { PrintedProgramsStart }
{}

/// What the printer makes of a program's typed term is printed for it, at every admissible launch;
/// it is one kernel for all of them.
pub fn programs_are_printed()
    ensures { ProgramsArePrinted }
{}

/// Any two kernels that are printed for a program's typed term run alike.
pub fn printed_programs_go_alike()
    ensures { PrintedProgramsGoAlike }
{}
