//! Laws of the kernel grammar.

ghost use Rattle.std.specs.Prelude.{◌≡◌, ℕ, List, []};
ghost use Rattle.readings.specs.Readings.{Reads};
ghost use Rattle.kernel_tree.specs.Code.{Kernel};
ghost use Rattle.kernel_tree.specs.KernelText.{Piece, Notes, IsKernelText, all_of, kernels, start, nothing};
ghost use Rattle.kernel_tree.specs.Pieces.{ArePieces, joined};
ghost use Rattle.kernel_spelling.specs.Spelling.{HasText, IsName, text_of};
ghost use Rattle.kernel_spelling.specs.SequenceText.{FrontsAreOfOneKernel, FrontsAreRefusedBehind, SequencesHaveOneText, TextsAreOfOneSequence, TextsAreWhole};

/// A kernel has one text by its name.
pub fn one_text()
    // The kernel grammar relates a kernel to its text.
    ensures taken { (name : Piece) (k : Kernel) → IsName name → HasText k →
        IsKernelText name (text_of name k) k }
    // It relates no other bytes to that kernel, and nothing to a kernel that has none.
    ensures only { (name : Piece) (bytes : List ℕ) (k : Kernel) → IsKernelText name bytes k →
        HasText k × (bytes ≡ text_of name k) }
{}

/// A text is of one kernel.
pub fn one_kernel()
    ensures { (name : Piece) (bytes : List ℕ) (k l : Kernel) →
        IsKernelText name bytes k → IsKernelText name bytes l → k ≡ l }
{}

/// A text is cut into pieces in one way, and is what they are together.
pub fn one_cut()
    ensures one { (bytes : List ℕ) (ps qs : List Piece) →
        ArePieces bytes ps → ArePieces bytes qs → ps ≡ qs }
    ensures whole { (bytes : List ℕ) (ps : List Piece) → ArePieces bytes ps → bytes ≡ joined ps }
{}

/// What a whole reading notes is one kernel, which has a text.
pub fn whole_readings()
    ensures made { (name : Piece) (ps : List Piece) (n : Notes) →
        Reads kernels (start name) nothing ps [] n → (k : Kernel) × (n ≡ all_of k) }
    ensures has_text { (name : Piece) (ps : List Piece) (k : Kernel) →
        Reads kernels (start name) nothing ps [] (all_of k) → HasText k }
{}

/// Kernels in order have one text.
#[tactic(auto, using(crate::proofs::Sequences::sequences_have_one_text))]
pub fn sequences_have_one_text()
    ensures { SequencesHaveOneText }
{}

/// A text is of one list of kernels in order.
#[tactic(auto, using(crate::proofs::Sequences::texts_are_of_one_sequence))]
pub fn texts_are_of_one_sequence()
    ensures { TextsAreOfOneSequence }
{}

/// A text is of kernels exactly where its pieces are theirs, one kernel after another.
#[tactic(auto, using(crate::proofs::Sequences::texts_are_whole))]
pub fn texts_are_whole()
    ensures { TextsAreWhole }
{}

/// Where more pieces follow all those of a kernel, they are refused right behind it.
#[tactic(auto, using(crate::proofs::Sequences::fronts_are_refused_behind))]
pub fn fronts_are_refused_behind()
    ensures { FrontsAreRefusedBehind }
{}

/// Pieces begin with those of one kernel of a name at most.
#[tactic(auto, using(crate::proofs::Sequences::fronts_are_of_one_kernel))]
pub fn fronts_are_of_one_kernel()
    ensures { FrontsAreOfOneKernel }
{}
