//! Laws of the device, each carried by a function that does nothing.

ghost use Rattle.std.specs.Prelude.{◌≡◌, ◌↔◌, ℕ, ◌+◌, ◌*◌, ◌<◌, ◌≤◌, Bool, true, List, [], ◌∷◌, ◌++◌, Option, Some, length};
ghost use Rattle.kernel_tree.specs.declared.events.Event.{Event};
ghost use Rattle.kernel_tree.specs.declared.events.Event.TheVariants.{Release};
ghost use Rattle.kernel_tree.specs.Formula.{Formula, Lanes, Four, Vars, set_word, set_vector, value, bound_value, lanes_value};
ghost use Rattle.kernel_tree.specs.Launch.{Launch, in_a_row, Cells, IsDivided, IsWhole, IsFlat, item_count, ids_of};
ghost use Rattle.kernel_tree.specs.Numbering.{LaidOut, LaidInARow};
ghost use Rattle.kernel_tree.specs.Code.{Array, Code, Assigns, Loads, Stores, AssignsFour, LoadsFour, StoresFour, Guards, Start, start_value, then_rest, Kernel, Performs};
ghost use Rattle.kernel_tree.specs.Item.{Frame, Item, item, loop_variables};
ghost use Rattle.kernel_tree.specs.Bound.{bound};
ghost use Rattle.kernel_tree.specs.Faults.{Access, accesses, accesses_of, Among, OfOneEvent, RacesAfter, NoFailure, FaultIs, IsFaultless, Run};
ghost use Rattle.kernel_tree.specs.Deeds.{Deed, Moved, Got, Gave, GotFour, GaveFour, all_turns, Goes, AloneRun};
ghost use Rattle.kernel_tree.specs.Independent.{Owners, Independent, one_by_one, AsAllowed};
ghost use Rattle.kernel_tree.specs.Device.{Device, device_of, cell_at, four_at, four_words, Memory, Fence, State, IsStart, after, run, IsRun, AllEnded, IsStuck};
ghost use Rattle.kernel_tree.specs.Footprints.{KeepsGroups, KeepsItems, steps, LeavesOthers, LeadsAlike};
ghost use Rattle.kernel_tree.specs.Chunks.{Phases, Chunk, Rel, Chunked, AsChunked, Stretch, in_turn, Passed, Leads, release_acts, InTurn};
ghost use Rattle.kernel_tree.specs.Releases.{AtBarrier, Released};
ghost use Rattle.kernel_tree.specs.Rounds.{Loop, loop_code, Turns};
ghost use Rattle.kernel_tree.specs.Schedule.{Schedule, Chooses, ScheduledRun};
ghost use Rattle.kernel_tree.specs.EveryRun.{Completes, EveryRun};
ghost use Rattle.kernel_tree.specs.Histories.{Act, EveryHistory};
ghost use Rattle.kernel_tree.specs.Seen.{RacesIn, LaneIs, IsSeen};
ghost use Rattle.kernel_tree.specs.declared.events.Seen.{Seen};
ghost use Rattle.kernel_tree.specs.declared.events.FaultKind.{FaultKind};
ghost use Rattle.kernel_tree.specs.declared.events.FaultKind.TheVariants.{Race};
ghost use Rattle.kernel_tree.specs.Places.{AllDiffer, all_places, ItemsStand, TogetherIsOnePlace};
ghost use Rattle.kernel_tree.specs.Inputs.{LeavesInputs};
ghost use Rattle.kernel_tree.specs.Grammar.{is_kernel};
ghost use Rattle.kernel_tree.specs.Meets.{MeetTogether};
ghost use Rattle.kernel_tree.specs.Alike.{Histories, Enacts, AsHistories, CountsAs, GoesAlike, KernelEnacts, KernelsAlike};
ghost use Rattle.kernel_tree.specs.Blocks.{LoopCode, IfCode, CodeThenRest, BlocksJoin, CodeBehind};

/// How items and groups are numbered in a launch of two dimensions, and in one of one row.
pub fn layout()
    ensures whole { (l : Launch) → IsWhole l → LaidOut l }
    ensures one_row { (l : Launch) → IsFlat l → IsWhole l → LaidInARow l }
    ensures in_row { (global local : ℕ) (sizes : List ℕ) → IsDivided global local
        → IsWhole (in_a_row global local sizes) × IsFlat (in_a_row global local sizes) }
{}

/// What is left to do tells the places of a text apart, those in an `if` too, and in every run of a
/// kernel each item stands at one of them. Items stand together at one place, at the same turns.
pub fn places()
    ensures differ { (code : Code) → AllDiffer (all_places code) }
    ensures stand { ItemsStand }
    ensures together { TogetherIsOnePlace }
{}

/// The accesses of one event are at most four, of one item and all different, and all reads or all
/// writes. An event races where one of its lanes does; with one access it does so in its one lane.
pub fn accesses_of_an_event()
    ensures few { (d : Device) (s : State) (e : Event) → length (accesses_of d s e) ≤ 4 }
    ensures differ { (d : Device) (s : State) (e : Event) → AllDiffer (accesses_of d s e) }
    ensures alike { (d : Device) (s : State) (e : Event) (a b : Access)
        → Among a (accesses_of d s e) → Among b (accesses_of d s e) → OfOneEvent a b }
    ensures lanes { (d : Device) (s : State) (es : List Event) (e : Event)
        → RacesAfter d s es e ↔ ((lane : ℕ) × RacesIn d s es e lane) }
    ensures one { (d : Device) (s : State) (es : List Event) (e : Event) (a : Access)
        → accesses_of d (run d s es) e ≡ a ∷ [] → RacesAfter d s es e
        → LaneIs d s es e (Some Race) 0 }
{}

/// An event has one fault or none, and what is seen of it is one.
pub fn one_sight()
    ensures fault { (d : Device) (s : State) (es : List Event) (e : Event) (f g : Option FaultKind)
        → FaultIs d s es e f → FaultIs d s es e g → f ≡ g }
    ensures seen { (d : Device) (s : State) (es : List Event) (e : Event) (x y : Seen)
        → IsSeen d s es e x → IsSeen d s es e y → x ≡ y }
{}

/// One complete run without a failure and without a race tells of every run from its state, in
/// whatever order the events come: no run has a fault, none has more events or accesses, and each
/// that cannot go on has come to the same end.
pub fn one_run_tells_of_all()
    ensures { (d : Device) (s : State) (es : List Event) → IsWhole d.launch → Completes d s es
        → EveryRun d s es }
{}

/// In every run from the state of a complete one each item does, in its own order, a front of what
/// it does in the complete one, with the same accesses, and each group is released as often at
/// first; a run that cannot go on has the whole.
pub fn every_history()
    ensures { (d : Device) (s : State) (es : List Event) → IsWhole d.launch → Completes d s es
        → EveryHistory d s es }
{}

/// Where a complete run gives the items these histories, the runs from its state are just what the
/// histories allow, with the accesses that they tell, and as many: nothing else of the kernel
/// counts.
pub fn runs_by_histories()
    ensures counted { (d : Device) (s : State) (h : Histories) → IsWhole d.launch → Enacts d s h
        → CountsAs d s h }
    ensures runs { (d : Device) (s : State) (h : Histories) → IsWhole d.launch → Enacts d s h
        → AsHistories d s h }
{}

/// Two kernels whose items have the same histories go alike: each run of one is a run of the other,
/// with the same accesses event by event, and a schedule makes of both the same run.
pub fn alike()
    ensures states { (l : Launch) (m n : Array → ℕ) (s t : State) (h : Histories) → IsWhole l
        → s.epochs ≡ t.epochs → Enacts (record { launch = l; lengths = m }) s h
        → Enacts (record { launch = l; lengths = n }) t h
        → GoesAlike (record { launch = l; lengths = m }) s (record { launch = l; lengths = n }) t }
    ensures kernels { (k m : Kernel) (l : Launch) (c : Cells) (h : Histories) → IsWhole l
        → KernelEnacts k l c h → KernelEnacts m l c h → KernelsAlike k m l c }
{}

/// Where one run tells of every run, in every run the items of a group meet the same barriers with
/// the same turn numbers.
pub fn groups_meet()
    ensures { (d : Device) (s : State) (es fs : List Event) → EveryRun d s es → IsRun d s fs
        → MeetTogether d (run d s fs) }
{}

/// The rules by which one item goes on: an assignment moves it, a load gets a cell of its array, a
/// store gives one its value, and so of four words and cells; an `if` goes on with its body or past
/// it, and a loop goes through by its turns.
pub fn statements()
    ensures assignment { (d : Device) (k : ℕ) (fs : List Frame) (vars : Vars) (m : Memory) (v : ℕ)
        (e : Formula) (rest : Code) (x : ℕ)
        → value (ids_of d.launch k) (loop_variables fs) vars e ≡ Some x
        → Goes d k (item (Performs (Assigns v e) rest) fs vars) m (Moved ∷ [])
        (item rest fs (set_word vars v x)) }
    ensures load { (d : Device) (k : ℕ) (fs : List Frame) (vars : Vars) (m : Memory) (v : ℕ)
        (a : Array) (i : Formula) (rest : Code) (n : ℕ)
        → value (ids_of d.launch k) (loop_variables fs) vars i ≡ Some n → n < d.lengths a
        → Goes d k (item (Performs (Loads v a i) rest) fs vars) m (Got (cell_at d.launch k a n) ∷ [])
        (item rest fs (set_word vars v (m (cell_at d.launch k a n)))) }
    ensures store { (d : Device) (k : ℕ) (fs : List Frame) (vars : Vars) (m : Memory) (a : Array)
        (i e : Formula) (rest : Code) (n x : ℕ)
        → value (ids_of d.launch k) (loop_variables fs) vars i ≡ Some n
        → value (ids_of d.launch k) (loop_variables fs) vars e ≡ Some x → n < d.lengths a
        → Goes d k (item (Performs (Stores a i e) rest) fs vars) m (Gave (cell_at d.launch k a n) x ∷ [])
        (item rest fs vars) }
    ensures four_assignment { (d : Device) (k : ℕ) (fs : List Frame) (vars : Vars) (m : Memory)
        (v : ℕ) (e : Lanes) (rest : Code) (u : Four)
        → lanes_value (ids_of d.launch k) (loop_variables fs) vars e ≡ Some u
        → Goes d k (item (Performs (AssignsFour v e) rest) fs vars) m (Moved ∷ [])
        (item rest fs (set_vector vars v u)) }
    ensures four_load { (d : Device) (k : ℕ) (fs : List Frame) (vars : Vars) (m : Memory) (v : ℕ)
        (a : Array) (i : Formula) (rest : Code) (n : ℕ)
        → value (ids_of d.launch k) (loop_variables fs) vars i ≡ Some n → 4 * n + 3 < d.lengths a
        → Goes d k (item (Performs (LoadsFour v a i) rest) fs vars) m (GotFour (four_at d.launch k a n) ∷ [])
        (item rest fs (set_vector vars v (four_words m (four_at d.launch k a n)))) }
    ensures four_store { (d : Device) (k : ℕ) (fs : List Frame) (vars : Vars) (m : Memory)
        (a : Array) (i : Formula) (e : Lanes) (rest : Code) (n : ℕ) (u : Four)
        → value (ids_of d.launch k) (loop_variables fs) vars i ≡ Some n
        → lanes_value (ids_of d.launch k) (loop_variables fs) vars e ≡ Some u
        → 4 * n + 3 < d.lengths a
        → Goes d k (item (Performs (StoresFour a i e) rest) fs vars) m
        (GaveFour (four_at d.launch k a n) u ∷ []) (item rest fs vars) }
    ensures enters { (d : Device) (k : ℕ) (fs : List Frame) (vars : Vars) (m : Memory) (s : Start)
        (b : Formula) (body rest : Code) (n : ℕ) → bound_value d.launch.sizes b ≡ Some n
        → start_value (ids_of d.launch k) s < n
        → Goes d k (item (Guards s b body rest) fs vars) m (Moved ∷ [])
        (item (then_rest body rest) fs vars) }
    ensures passes { (d : Device) (k : ℕ) (fs : List Frame) (vars : Vars) (m : Memory) (s : Start)
        (b : Formula) (body rest : Code) (n : ℕ) → bound_value d.launch.sizes b ≡ Some n
        → n ≤ start_value (ids_of d.launch k) s
        → Goes d k (item (Guards s b body rest) fs vars) m (Moved ∷ []) (item rest fs vars) }
    ensures loops { (d : Device) (k : ℕ) (fs : List Frame) (p : Loop) (n : ℕ) (vs : ℕ → Vars)
        (m : Memory) (ds : ℕ → List Deed) → Turns d k fs p n vs m ds
        → Goes d k (item (loop_code p) fs (vs 0)) m (Moved ∷ all_turns ds n)
        (item p.after fs (vs n)) }
{}

/// Where an item goes on alone by these deeds, its steps are a run without a failure, which leads
/// it to the end of the deeds, memory to what they write, and makes their accesses.
pub fn an_item_alone()
    ensures { (d : Device) (k : ℕ) (s : State) (ds : List Deed) (y : Item) → k < item_count d.launch
        → Goes d k (s.items k) s.memory ds y → AloneRun d s k ds y }
{}

/// Items that need nothing of one another: every run is without a fault, and each cell comes to
/// hold what its one owner leaves there.
pub fn independent_items()
    ensures { (d : Device) (s : State) (o : Owners) (deeds : ℕ → List Deed) (ends : ℕ → Item)
        → IsWhole d.launch → Independent d s o deeds ends
        → AsAllowed d s o deeds ends (one_by_one deeds (item_count d.launch)) }
{}

/// Every run of a kernel from its start has at most the bound's events, whatever the launch, the
/// contents and the order of the events: where the device takes none after a fault, and where races
/// and divergence are passed over, but no event fails.
pub fn runs_are_bounded()
    ensures every { (k : Kernel) (l : Launch) (c : Cells) (s : State) (es : List Event) → IsWhole l
        → IsStart k l c s → Run (device_of k l c) s es → length es ≤ bound k l }
    ensures without_failure { (k : Kernel) (l : Launch) (c : Cells) (s : State) (es : List Event)
        → IsWhole l → IsStart k l c s → IsRun (device_of k l c) s es
        → NoFailure (device_of k l c) s es → length es ≤ bound k l }
{}

/// A run of a kernel of the grammar, whatever its faults, writes no input: inputs hold what they
/// held.
pub fn inputs_stay()
    ensures { (k : Kernel) (l : Launch) (c : Cells) (s : State) (es : List Event)
        → is_kernel k ≡ true → IsStart k l c s → IsRun (device_of k l c) s es
        → LeavesInputs (device_of k l c) c s es }
{}

/// Footprints. In a run from any state that has no fault, no actor writes a cell that another
/// accesses, and every reordering that keeps each actor's own order is a run without a fault to the
/// same state. Actors are the groups over a whole run, or the items in a run of their steps alone,
/// as between two releases.
pub fn footprints()
    ensures groups_apart { (d : Device) (s : State) (es : List Event) → IsWhole d.launch
        → IsRun d s es → IsFaultless d s es → LeavesOthers (λ a. a.group) (accesses d s es) }
    ensures groups { (d : Device) (s : State) (es fs : List Event) → IsWhole d.launch → IsRun d s es
        → IsFaultless d s es → KeepsGroups d.launch es fs → LeadsAlike d s es fs }
    ensures items_apart { (d : Device) (s : State) (ks : List ℕ) → IsWhole d.launch
        → IsRun d s (steps ks) → IsFaultless d s (steps ks)
        → LeavesOthers (λ a. a.item) (accesses d s (steps ks)) }
    ensures items { (d : Device) (s : State) (ks js : List ℕ) → IsWhole d.launch
        → IsRun d s (steps ks) → IsFaultless d s (steps ks) → KeepsItems ks js
        → LeadsAlike d s (steps ks) (steps js) }
{}

/// Items alone in turn and releases between them, each touching only cells that are its own in that
/// epoch or nobody's: where all items have ended after them, they tell of every run.
pub fn chunks_tell_of_all()
    ensures { (p : Phases) (d : Device) (s t : State) (cs : List Chunk) → IsWhole d.launch
        → Chunked p d s cs t → AllEnded d t → AsChunked p d s t cs }
{}

/// What the items do in chunks, put together: in none they do nothing; after one another they do
/// one after the other; a stretch is each item's deeds; a release takes each item of its group past
/// the barrier. Where all items have ended, these are their histories.
pub fn chunks_lead()
    ensures none { (p : Phases) (d : Device) (s : State) → Leads p d s [] s (λ j. []) }
    ensures join { (p : Phases) (d : Device) (s t u : State) (cs es : List Chunk)
        (f g : ℕ → List Act) → Leads p d s cs t f → Leads p d t es u g
        → Leads p d s (cs ++ es) u (λ j. f j ++ g j) }
    ensures stretch { (p : Phases) (d : Device) (s : State) (epochs : Fence → ℕ) (n : ℕ)
        (at : ℕ → ℕ) (deeds : ℕ → List Deed) (ends : ℕ → Item) (acts : ℕ → List Act)
        → Stretch p d s epochs n at deeds ends → InTurn n at deeds acts
        → (t : State) × Passed p d s epochs n at deeds ends t
        × Leads p d s (in_turn at deeds ends n) t acts }
    ensures release { (p : Phases) (d : Device) (s : State) (g : ℕ) (on_local on_global : Bool)
        (rest : Code) (frames : ℕ → List Frame) (vars : ℕ → Vars) → IsWhole d.launch
        → AtBarrier d s g on_local on_global rest frames vars
        → Leads p d s (Rel g ∷ []) (after d s (Release g))
        (release_acts d.launch g on_local on_global) }
    ensures over { (p : Phases) (d : Device) (s t : State) (cs : List Chunk) (acts : ℕ → List Act)
        → IsWhole d.launch → Leads p d s cs t acts → AllEnded d t → Enacts d s acts }
{}

/// Different items, each by its own deeds between two releases, may go on one after another: each
/// cell of theirs then holds what its owner leaves there.
pub fn items_between_releases()
    ensures { (p : Phases) (d : Device) (s : State) (epochs : Fence → ℕ) (n : ℕ) (at : ℕ → ℕ)
        (deeds : ℕ → List Deed) (ends : ℕ → Item) → Stretch p d s epochs n at deeds ends
        → (t : State) × Passed p d s epochs n at deeds ends t }
{}

/// A group whose items all stand before one barrier at the same turns may be released, and goes on
/// past it with its epochs raised by the barrier's flags.
pub fn a_release()
    ensures { (d : Device) (s : State) (g : ℕ) (on_local on_global : Bool) (rest : Code)
        (frames : ℕ → List Frame) (vars : ℕ → Vars) → IsWhole d.launch
        → AtBarrier d s g on_local on_global rest frames vars
        → Released d s g on_local on_global rest frames vars }
{}

/// A schedule takes one event in a state, and makes one run from it. Where no run has a fault, it
/// goes on until no event is enabled.
pub fn one_scheduled_run()
    ensures choice { (d : Device) (schedule : Schedule) (n : ℕ) (s : State) (e f : Event)
        → Chooses schedule n d s e → Chooses schedule n d s f → e ≡ f }
    ensures to_end { (d : Device) (schedule : Schedule) (s : State) (es : List Event)
        → ((fs : List Event) → IsRun d s fs → IsFaultless d s fs) → ScheduledRun schedule d s es
        → IsStuck d (run d s es) }
    ensures run { (d : Device) (schedule : Schedule) (s : State) (es fs : List Event)
        → ScheduledRun schedule d s es → ScheduledRun schedule d s fs → es ≡ fs }
{}

/// Blocks as the program holds them: a loop's and an `if`'s code has the code of its body's
/// statements, what follows a block is behind its last statement, and the code of statements behind
/// others is behind theirs.
pub fn blocks()
    ensures loops { LoopCode }
    ensures ifs { IfCode }
    ensures rest { CodeThenRest }
    ensures join { BlocksJoin }
    ensures behind { CodeBehind }
{}
