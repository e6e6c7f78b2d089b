//! Small kernels whose runs are known. They show what the definitions of the device say.

ghost use Rattle.std.specs.Prelude.{◌≡◌, ℕ, [], ◌∷◌, ◌++◌, Some, None, true, false, length, map, replicate};
ghost use Rattle.kernel_tree.specs.declared.events.Event.TheVariants.{Step, Release};
ghost use Rattle.kernel_tree.specs.declared.events.Access.TheVariants.{Read, Write, WriteFour};
ghost use Rattle.kernel_tree.specs.declared.tree.Array.TheVariants as held;
ghost use Rattle.kernel_tree.specs.declared.events.FaultKind.TheVariants as fault;
ghost use Rattle.scalar_ops.specs.declared.op.Op.TheVariants.{Add, Div, Lt};
ghost use Rattle.kernel_tree.specs.Formula.{Number, Variable, LoopVariable, Binary, Vector, Spread, Each, value, lanes_value, sizes_alone, no_vars, ids_along};
ghost use Rattle.kernel_tree.specs.Launch.{ids_of, group_of, first_item, in_a_row};
ghost use Rattle.kernel_tree.specs.Code.{Input, Output, Local, Private, FromZero, ByOne, End, Performs, Stores, Loops, then_rest};
ghost use Rattle.kernel_tree.specs.Grammar.{is_kernel, is_expression};
ghost use Rattle.kernel_tree.specs.Device.{AllEnded, Enabled, IsRun, device_of, run, start_state};
ghost use Rattle.kernel_tree.specs.Item.{Fails, Moves, Reads, Writes, item, loop_variables, next};
ghost use Rattle.kernel_tree.specs.Seen.{access_wanted, fault_of, seen_of, IsSeen};
ghost use Rattle.kernel_tree.specs.Faults.{failure_of};
ghost use Rattle.kernel_tree.specs.Bound.{bound};
ghost use Rattle.kernel_tree.specs.Launch.{Cells, MayStart};
ghost use Rattle.worked_kernels.specs.DeviceRuns.{row_device, row_start, row_events, row_writes, if_kernel, four_in_a_group, four_words_in, if_device, if_start, if_events, vector_device, vector_start, vector_events, cells_after};
ghost use Rattle.kernel_tree.specs.KernelText.{lift, IsKernelText};
ghost use Rattle.worked_kernels.specs.DeviceText.{worked_text, worked_kernel};
ghost use Rattle.kernel_tree.specs.Alike.{KernelsAlike};
ghost use Rattle.worked_kernels.specs.DeviceAlike.{plain_kernel, choosing_kernel, pairs, SwapsCount};
ghost use Rattle.kernel_tree.specs.Schedule.{Numbers, Seed, number_at, choose_event, place_of, AreEnabled};
ghost use Rattle.kernel_tree.specs.Numbering.{member_at};
ghost use Rattle.worked_kernels.specs.DeviceKernels.{unflagged, Faults, one_output, writes_first, writes_second, writes_local, writes_private, two_items, first_state, of_two_groups, divides_by_zero, some_meet_a_barrier, swaps, to_the_barrier, increments, of_three, three_words, nested, left_at, of_six, meets_in_an_if, meets_again, guarded_without_a_bound, assigns_one, stores_it, assigns_in_an_if, one_group, guarded, guarded_start, guarded_events, of_four, of_pairs, waiting, waiting_start, stores_four, loads_the_third, divides_by, one_zero, wants_far, loads_second_four, stores_far, of_fours, first_of_fours, four_vars, divides_unchosen, without_a_bound, ends_a_turn, meets_in_loops, first_turns, meeting, met, in_loops};

/// Two items that write one cell race. A write past the array is out of range. A divisor of 0 is a
/// fault. Where one item of a group ends and the other stands at a barrier, the group diverges.
pub fn worked_faults()
    ensures race { Faults writes_first 2 1 (Step 0 ∷ []) (Step 1) (Some fault.Race) }
    ensures out_of_range { Faults writes_second 1 1 [] (Step 0) (Some fault.OutOfRange) }
    ensures zero_divisor { Faults divides_by_zero 1 1 [] (Step 0) (Some fault.ZeroDivisor) }
    ensures divergent { Faults some_meet_a_barrier 2 2 (Step 0 ∷ []) (Step 1)
        (Some fault.Divergent) }
{}

/// Two items of one group race in its local array. Each group has its own, and each item its own
/// private arrays.
pub fn worked_arrays()
    ensures one_group { Faults writes_local 2 2 (Step 0 ∷ []) (Step 1) (Some fault.Race) }
    ensures two_groups { Faults writes_local 2 1 (Step 0 ∷ []) (Step 1) None }
    ensures private { Faults writes_private 2 2 (Step 0 ∷ []) (Step 1) None }
{}

/// A barrier with the local flag orders accesses of a local array. One with the global flag alone
/// does not.
pub fn worked_barriers()
    ensures ordered { Faults (swaps true false) 2 2 to_the_barrier (Step 0) None }
    ensures unordered { Faults (swaps false true) 2 2 to_the_barrier (Step 0) (Some fault.Race) }
{}

/// The kernel that adds one to three words ends after as many events as its bound, and leaves their
/// wrapped sums.
pub fn worked_run()
    ensures ends { let d = device_of increments of_three three_words in
        let s = start_state increments three_words in
        IsRun d s (replicate 10 (Step 0)) × AllEnded d (run d s (replicate 10 (Step 0))) }
    ensures first { left_at 0 ≡ 2 }
    ensures second { left_at 1 ≡ 3 }
    ensures third { left_at 2 ≡ 0 }
    ensures bounded { bound increments of_three ≡ 10 }
{}

/// An item knows its number in the launch and in its group, and its group's number, from 0.
pub fn worked_ids()
    ensures { ids_of of_six 3 ≡ record {
      x = record {
        global_id = 3;
        group_id = 1;
        local_id = 1;
        global_size = 6;
        group_count = 3;
        local_size = 2;
      };
      y = ids_along 1 1 0;
      sizes = [];
    } }
{}

/// In two dimensions items and groups are numbered row by row. An item knows its place and its
/// group's in both.
pub fn worked_rows()
    ensures second_row { let ids = ids_of of_four 2 in
        (ids.x.global_id ≡ 0) × (ids.y.global_id ≡ 1) × (group_of of_four 2 ≡ 2) }
    ensures pairs { ids_of of_pairs 19 ≡ record {
      x = record {
        global_id = 3;
        group_id = 1;
        local_id = 1;
        global_size = 4;
        group_count = 2;
        local_size = 2;
      };
      y = record {
        global_id = 4;
        group_id = 1;
        local_id = 1;
        global_size = 6;
        group_count = 2;
        local_size = 3;
      };
      sizes = [];
    } }
    ensures group { group_of of_pairs 19 ≡ 3 }
    ensures least { map (first_item of_pairs) (0 ∷ 1 ∷ 2 ∷ 3 ∷ []) ≡ 0 ∷ 2 ∷ 12 ∷ 14 ∷ [] }
    ensures members { map (member_at of_pairs 0) (0 ∷ 1 ∷ 2 ∷ 3 ∷ 4 ∷ 5 ∷ [])
        ≡ 0 ∷ 1 ∷ 4 ∷ 5 ∷ 8 ∷ 9 ∷ [] }
{}

/// A release comes where its group's least item does: that of the second group before steps of
/// items of the first.
pub fn worked_releases()
    ensures places { map (place_of of_pairs)
        (Step 1 ∷ Release 1 ∷ Step 4 ∷ Step 9 ∷ Release 2 ∷ Step 13 ∷ Release 3 ∷ [])
        ≡ 1 ∷ 2 ∷ 4 ∷ 9 ∷ 12 ∷ 13 ∷ 14 ∷ [] }
    ensures first_in_group { (group_of of_pairs 4 ≡ 0) × (group_of of_pairs 9 ≡ 0) }
    ensures enabled { AreEnabled waiting waiting_start
        (Release 0 ∷ Release 1 ∷ Release 2 ∷ Release 3 ∷ []) }
{}

/// An `if` is one event, which enters or passes, and leaving it is none. It costs one and its body.
/// A barrier in it is another than the one behind it.
pub fn worked_ifs()
    ensures enters { next (ids_of one_group 0) (item assigns_in_an_if [] no_vars)
        ≡ Moves (item (then_rest assigns_one stores_it) [] no_vars) }
    ensures passes { next (ids_of one_group 1) (item assigns_in_an_if [] no_vars)
        ≡ Moves (item stores_it [] no_vars) }
    ensures run { IsRun guarded guarded_start guarded_events }
    ensures ends { AllEnded guarded (run guarded guarded_start guarded_events) }
    ensures left { cells_after guarded guarded_start guarded_events (0 ∷ 1 ∷ []) ≡ 1 ∷ 0 ∷ [] }
    ensures bounded { bound (one_output assigns_in_an_if) one_group ≡ 6 }
    ensures passed_by { Faults meets_in_an_if 2 2 (Step 0 ∷ []) (Step 1) (Some fault.Divergent) }
    ensures divergent { Faults meets_again 2 2 (Step 0 ∷ []) (Step 1) (Some fault.Divergent) }
    ensures zero_divisor { Faults guarded_without_a_bound 1 1 [] (Step 0)
        (Some fault.ZeroDivisor) }
{}

/// A kernel over rows and columns, run by two rows of two items: 30 events, and the third item
/// writes cells 3 and 5.
pub fn worked_grid()
    ensures run { IsRun row_device row_start row_events }
    ensures ends { AllEnded row_device (run row_device row_start row_events) }
    ensures events { length row_events ≡ 30 }
    ensures written { row_writes 2 ≡ 3 ∷ 5 ∷ [] }
    ensures left { cells_after row_device row_start row_events (0 ∷ 1 ∷ 2 ∷ 3 ∷ 4 ∷ 5 ∷ [])
        ≡ 2 ∷ 3 ∷ 4 ∷ 5 ∷ 6 ∷ 7 ∷ [] }
{}

/// A kernel for groups of four with two `if`s, which two of the items enter: 44 events.
pub fn worked_tiles()
    ensures may_start { MayStart if_kernel four_in_a_group four_words_in }
    ensures run { IsRun if_device if_start if_events }
    ensures ends { AllEnded if_device (run if_device if_start if_events) }
    ensures events { length if_events ≡ 44 }
    ensures left { cells_after if_device if_start if_events (0 ∷ 1 ∷ 2 ∷ 3 ∷ [])
        ≡ 2 ∷ 3 ∷ 4 ∷ 5 ∷ [] }
{}

/// A kernel over fours: 8 events for eight words.
pub fn worked_vectors()
    ensures run { IsRun vector_device vector_start vector_events }
    ensures ends { AllEnded vector_device (run vector_device vector_start vector_events) }
    ensures events { length vector_events ≡ 8 }
    ensures left { cells_after vector_device vector_start vector_events
        (0 ∷ 1 ∷ 2 ∷ 3 ∷ 4 ∷ 5 ∷ 6 ∷ 7 ∷ []) ≡ 2 ∷ 3 ∷ 4 ∷ 5 ∷ 6 ∷ 7 ∷ 8 ∷ 9 ∷ [] }
{}

/// Four cells are accessed by one event. A race is in the least of them that races, and they are
/// out of range where one is, with no wrapping. A divisor of 0 in one lane is one.
pub fn worked_fours()
    ensures least { IsSeen (of_fours stores_four 8) (first_of_fours stores_four 8) (Step 0 ∷ [])
        (Step 1) (record {
          event = Step 1;
          access = Some (WriteFour (record { array = held.Output 0; index = 4 }));
          fault = Some (record {
            kind = fault.Race;
            cell = Some (record { array = held.Output 0; index = 4 });
          });
        }) }
    ensures third { IsSeen (of_fours loads_the_third 8) (first_of_fours loads_the_third 8)
        (Step 0 ∷ Step 0 ∷ Step 1 ∷ []) (Step 1) (record {
          event = Step 1;
          access = Some (WriteFour (record { array = held.Output 0; index = 4 }));
          fault = Some (record {
            kind = fault.Race;
            cell = Some (record { array = held.Output 0; index = 6 });
          });
        }) }
    ensures last_outside { failure_of (of_fours loads_second_four 7)
        (first_of_fours loads_second_four 7) (Step 0) ≡ Some fault.OutOfRange }
    ensures inside { failure_of (of_fours loads_second_four 8)
        (first_of_fours loads_second_four 8) (Step 0) ≡ None }
    ensures far { failure_of (of_fours stores_far 4) (first_of_fours stores_far 4) (Step 0)
        ≡ Some fault.OutOfRange }
    ensures far_access { access_wanted wants_far
        ≡ Some (WriteFour (record { array = held.Output 0; index = 4294967296 })) }
    ensures far_race { fault_of wants_far 3 fault.Race ≡ record {
      kind = fault.Race;
      cell = Some (record { array = held.Output 0; index = 4294967299 });
    } }
    ensures lanes { lanes_value (sizes_alone []) [] four_vars
        (Each Add (Vector 0) (Spread (Number 3)))
        ≡ Some (record { x = 4; y = 5; z = 3; w = 7 }) }
    ensures divisor { next (sizes_alone []) (divides_by one_zero) ≡ Fails fault.ZeroDivisor }
{}

/// Of a conditional only the chosen part is evaluated. A loop whose bound has no value counts one
/// event an item. A loop's variable stays below 2^32.
pub fn worked_values()
    ensures chosen { value (sizes_alone []) [] no_vars divides_unchosen ≡ Some 1 }
    ensures unbounded { bound (one_output without_a_bound)
        (in_a_row 3 1 []) ≡ 3 }
    ensures goes_on { next (sizes_alone []) (ends_a_turn 4294967294) ≡ Moves (item End [] no_vars) }
    ensures wraps { next (sizes_alone []) (ends_a_turn 4294967295) ≡ Fails fault.LoopWrap }
{}

/// Items stand together at a barrier where their turn numbers are the same, though their loops'
/// variables differ. At one barrier in different turns they diverge.
pub fn worked_turns()
    ensures first_variable { loop_variables (met.items 0).frames ≡ 0 ∷ 0 ∷ [] }
    ensures second_variable { loop_variables (met.items 1).frames ≡ 0 ∷ 1 ∷ [] }
    ensures same_turns { Enabled meeting met (Release 0) }
    ensures other_turns { Faults meets_in_loops 2 2
        (first_turns ++ Release 0 ∷ Step 0 ∷ Step 1 ∷ Step 1 ∷ []) (Step 1) (Some fault.Divergent) }
{}

/// A list's numbers are taken modulo the count of enabled events, and a seed's by the high half of
/// the generator's word.
pub fn worked_schedules()
    ensures listed { choose_event (Numbers (3 ∷ 6 ∷ [])) 1 (Step 0 ∷ Step 1 ∷ Step 2 ∷ Step 3 ∷ [])
        ≡ Some (Step 2) }
    ensures used_up { choose_event (Numbers (3 ∷ 6 ∷ [])) 2 (Step 0 ∷ Step 1 ∷ Step 2 ∷ Step 3 ∷ [])
        ≡ Some (Step 0) }
    ensures release { place_of of_two_groups (Release 1) ≡ 2 }
    ensures seeded { number_at (Seed 7) 0 ≡ 15648 }
    ensures second { number_at (Seed 7) 1 ≡ 59866 }
    ensures third { number_at (Seed 7) 2 ≡ 40140 }
{}

/// An event's access is seen where it is of shared memory, and a fault has a cell where it is a
/// race.
pub fn worked_sights()
    ensures race { seen_of two_items first_state (Step 1) 0 (Some fault.Race) ≡ record {
      event = Step 1;
      access = Some (Write (record { array = held.Output 0; index = 0 }));
      fault = Some (record {
        kind = fault.Race;
        cell = Some (record { array = held.Output 0; index = 0 });
      });
    } }
    ensures out_of_range { fault_of (Writes (Output 0) 1 1 (item End [] no_vars)) 0 fault.OutOfRange
        ≡ record { kind = fault.OutOfRange; cell = None } }
    ensures private { access_wanted (Writes (Private 0) 0 1 (item End [] no_vars)) ≡ None }
    ensures local { access_wanted (Reads (Local 0) 5 (λ x. item End [] no_vars))
        ≡ Some (Read (record { array = held.Local 0; index = 5 })) }
    ensures read { access_wanted (Reads (Input 2) 5 (λ x. item End [] no_vars))
        ≡ Some (Read (record { array = held.Input 2; index = 5 })) }
{}

/// A kernel names only what it declares, a loop's variable only within the loop, writes no input,
/// has a statement in each block and a flag at each barrier, no comparison but in a conditional,
/// and no bound looks at a variable. Expressions and loops nest 1,024 deep.
pub fn worked_kernels()
    ensures increments { is_kernel increments ≡ true }
    ensures undeclared { is_kernel (one_output (Performs (Stores (Output 1) (Number 0) (Number 0)) End))
        ≡ false }
    ensures outside { is_kernel (one_output (Performs (Stores (Output 0) (LoopVariable 0) (Number 0)) End))
        ≡ false }
    ensures constant { is_kernel (one_output (Performs (Stores (Input 0) (Number 0) (Number 0)) End)) ≡ false }
    ensures empty { is_kernel (one_output (Loops FromZero (Number 1) ByOne End End)) ≡ false }
    ensures varying { is_kernel (one_output
        (Loops FromZero (Variable 0) ByOne (Performs (Stores (Output 0) (Number 0) (Number 0)) End) End))
        ≡ false }
    ensures unflagged { is_kernel (one_output unflagged) ≡ false }
    ensures compared { is_kernel (one_output
        (Performs (Stores (Output 0) (Number 0) (Binary Lt (Number 0) (Number 1))) End))
        ≡ false }
    ensures deep_loops { is_kernel (one_output (in_loops 1024 writes_first)) ≡ true }
    ensures deeper_loops { is_kernel (one_output (in_loops 1025 writes_first)) ≡ false }
    ensures deep { is_expression (one_output End) 0 (nested 1023) ≡ true }
    ensures deeper { is_expression (one_output End) 0 (nested 1024) ≡ false }
{}

/// A text with a size of its groups, an `if`, ids of dimension 1 and a variable of four words is
/// that of its kernel, which is in the grammar.
pub fn worked_text()
    ensures text { IsKernelText lift worked_text worked_kernel }
    ensures in_grammar { is_kernel worked_kernel ≡ true }
{}

/// Two kernels that swap words over a barrier and spell their indices in two ways go alike, in
/// however many groups. In every run that can't go on each of their items has stored and loaded one
/// local word, and each group was released once.
pub fn worked_alike()
    ensures alike { (m : ℕ) (c : Cells) → KernelsAlike plain_kernel choosing_kernel (pairs m) c }
    ensures traffic { SwapsCount }
{}
