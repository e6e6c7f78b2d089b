//! A plan of a legal term and its buffers.

ghost use Rattle.std.specs.Prelude.{◌≡◌, List, IfOk};
ghost use Rattle.lift_tree.specs.Annotations.{annotation_of};
ghost use Rattle.lift_tree.specs.Tree.{tree_of};
ghost use Rattle.lowering.specs.Terms.{term_of};
ghost use Rattle.buffer_allocation.specs.Allocated.{AreAllocated};
ghost use Rattle.size_arith.specs.declared.names.Name.{Name};
ghost use Rattle.group_form.specs.ChosenForms.{forms_by, forms_of, row_forms_of};
ghost use Rattle.group_form.specs.Form.{is_once};
ghost use Rattle.group_form.specs.GridChosen.{grid_forms_of};
ghost use Rattle.group_form.specs.GridTheorem.{is_once_along, is_once_over};
ghost use Rattle.phase_plan.specs.Planned.{IsKindOf};
ghost use Rattle.phase_plan.specs.Plans.{IsTold};
ghost use Rattle.printed_form.specs.Programs.{lowered_root};

use crate::kind::Kind;
use crate::phases::Phases;
use crate::planned::Plan;
use buffer_allocation::buffers::Buffers;
use group_form::chosen::is_over_one;
use lowered_tree::kind::{NestKind, nest_kind};
use lowered_tree::laws::legal_without_fault;
use lowered_tree::lowered::Spaced;
use lowering::lower::lower;
use lowering::term::Term;
use nest_premises::groups::legal_nests_stand;
use size_arith::Names;
use std::alloc::{AllocError, Global};

// The size that is fixed along a row.
fn across(local: Option<(u32, u32)>) -> Option<u32>
    ensures { (names : List Name) → forms_by names result ≡ forms_of names local }
{
    match local {
        Some((across, _)) => Some(across),
        None => None,
    }
}

// The size that is fixed from row to row.
fn down(local: Option<(u32, u32)>) -> Option<u32>
    ensures { (names : List Name) → forms_by names result ≡ row_forms_of names local }
{
    match local {
        Some((_, down)) => Some(down),
        None => None,
    }
}

// Whether the map over work-groups is an `if`, by the local size that is fixed.
fn is_once(names: &Names, local: Option<(u32, u32)>, term: &Term) -> bool
    ensures { result ≡ is_once (forms_of names.now local) (term_of term.now) }
{
    match term {
        Term::Reshape(_, a) | Term::LetArray(_, a) => is_once(names, local, a),
        Term::Map(map) => is_over_one(names, across(local), &map.length),
        Term::Literal(_)
        | Term::Bound(_)
        | Term::Source(_)
        | Term::Apply(_, _, _)
        | Term::ApplyNumber(_, _, _)
        | Term::ApplyLanes { .. }
        | Term::DivideLanes(_, _, _)
        | Term::Select(_, _, _)
        | Term::Pair(_, _)
        | Term::Zip(_, _)
        | Term::First(_)
        | Term::Second(_)
        | Term::LetElement(_, _, _)
        | Term::Fold(_)
        | Term::Store(_, _)
        | Term::Copy(_, _, _) => false,
    }
}

// Whether the map over the groups of a row is.
fn is_once_along(names: &Names, local: Option<(u32, u32)>, term: &Term) -> bool
    ensures { result ≡ is_once_along (grid_forms_of names.now local) (term_of term.now) }
{
    match term {
        Term::Reshape(_, a) => is_once_along(names, local, a),
        Term::Map(map) => is_over_one(names, across(local), &map.length),
        Term::Literal(_)
        | Term::Bound(_)
        | Term::Source(_)
        | Term::Apply(_, _, _)
        | Term::ApplyNumber(_, _, _)
        | Term::ApplyLanes { .. }
        | Term::DivideLanes(_, _, _)
        | Term::Select(_, _, _)
        | Term::Pair(_, _)
        | Term::Zip(_, _)
        | Term::First(_)
        | Term::Second(_)
        | Term::LetArray(_, _)
        | Term::LetElement(_, _, _)
        | Term::Fold(_)
        | Term::Store(_, _)
        | Term::Copy(_, _, _) => false,
    }
}

// Whether both maps over groups are.
fn is_once_over(names: &Names, local: Option<(u32, u32)>, term: &Term) -> bool
    ensures { result ≡ is_once_over (grid_forms_of names.now local) (term_of term.now) }
{
    match term {
        Term::Reshape(_, a) | Term::LetArray(_, a) => is_once_over(names, local, a),
        Term::Map(map) => {
            is_over_one(names, down(local), &map.length) && is_once_along(names, local, &map.body)
        }
        Term::Literal(_)
        | Term::Bound(_)
        | Term::Source(_)
        | Term::Apply(_, _, _)
        | Term::ApplyNumber(_, _, _)
        | Term::ApplyLanes { .. }
        | Term::DivideLanes(_, _, _)
        | Term::Select(_, _, _)
        | Term::Pair(_, _)
        | Term::Zip(_, _)
        | Term::First(_)
        | Term::Second(_)
        | Term::LetElement(_, _, _)
        | Term::Fold(_)
        | Term::Store(_, _)
        | Term::Copy(_, _, _) => false,
    }
}

// Who runs the term, with its phases over work-groups.
fn kind_of(alloc: Global, spaced: &Spaced, root: &Term) -> Result<Kind, AllocError>
    requires { term_of root.now ≡ lowered_root spaced.now.mapped.lowered.names
        (tree_of spaced.now.mapped.lowered.term)
        (annotation_of spaced.now.mapped.lowered.types) }
    ensures { IfOk result
        (IsKindOf spaced.now.mapped.lowered.names spaced.now.mapped.local
        (tree_of spaced.now.mapped.lowered.term) (term_of root.now)) }
{
    legal_nests_stand();
    legal_without_fault();
    let mapped = &spaced.mapped;
    match nest_kind(&mapped.lowered.term) {
        NestKind::Task => Ok(Kind::Task),
        NestKind::OverLaunch => Ok(Kind::OverLaunch),
        NestKind::OverGroups => {
            let once = is_once(&mapped.lowered.names, mapped.local, root);
            Ok(Kind::OverGroups(Phases::of(alloc, root, once)?))
        }
        NestKind::OverGrid => {
            let once = is_once_over(&mapped.lowered.names, mapped.local, root);
            Ok(Kind::OverGrid(Phases::of_grid(alloc, root, once)?))
        }
    }
}

/// Plans a legal term with its buffers, which are those that `buffers` gives for it. It is lowered
/// here, once. 2^32 phases or local arrays are answered as want of memory.
pub fn plan<'s>(
    alloc: Global,
    spaced: &'s Spaced,
    buffers: &'s Buffers,
) -> Result<Plan<'s>, AllocError>
    requires { AreAllocated buffers.now.local.items buffers.now.private.items
        (tree_of spaced.now.mapped.lowered.term)
        (annotation_of spaced.now.mapped.lowered.types) }
    ensures spaced { IfOk result (λ plan. plan.spaced.now ≡ spaced.now) }
    ensures buffers { IfOk result (λ plan. plan.buffers.now ≡ buffers.now) }
    ensures told { IfOk result IsTold }
{
    legal_without_fault();
    let lowered = &spaced.mapped.lowered;
    let root = lower(alloc, &lowered.names, &lowered.term, &lowered.types)?;
    let kind = kind_of(alloc, spaced, &root)?;
    Ok(Plan {
        spaced,
        buffers,
        root,
        kind,
    })
}
