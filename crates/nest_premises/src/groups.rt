//! Laws of legal nests, each carried by a function that does nothing but cite those it stands on.

ghost use Rattle.nest_premises.specs.Groups.{
  GridPhasesAreFew,
  LegalGridsStandOverGrids,
  LegalGroupsStandOverGroups,
  LegalNestsStand,
  LegalTermsArePrintable,
  PhasesAreFew,
};

use crate::laws::{
    element_tests_agree, item_bodies_stand, kinds_tell_tasks, launches_stand,
    legal_nests_are_unbroken, legal_terms_can_be_lowered, legal_terms_keep_fours,
    lets_around_maps_bind_no_element, tasks_stand, ungrouped_terms_are_printable,
};

/// What a legal term is lowered to is for one work-item, over all of them, over work-groups, or
/// over rows of these, as its kind says.
pub fn legal_nests_stand()
    ensures { LegalNestsStand }
{
    legal_terms_can_be_lowered();
    kinds_tell_tasks();
    tasks_stand();
    launches_stand();
    legal_nests_are_unbroken();
    item_bodies_stand();
    lets_around_maps_bind_no_element();
    element_tests_agree();
}

/// A legal term with a map over work-groups on top can be printed as such.
pub fn legal_groups_stand_over_groups()
    ensures { LegalGroupsStandOverGroups }
{
    legal_terms_can_be_lowered();
    legal_terms_keep_fours();
    legal_nests_stand();
}

/// And so can one with a map over rows of work-groups on top.
pub fn legal_grids_stand_over_grids()
    ensures { LegalGridsStandOverGrids }
{
    legal_terms_can_be_lowered();
    legal_terms_keep_fours();
    legal_nests_stand();
}

/// Each legal term can be printed, for one work-item, for all of them, for work-groups, or for rows
/// of these, as its kind says.
pub fn legal_terms_are_printable()
    ensures { LegalTermsArePrintable }
{
    ungrouped_terms_are_printable();
    legal_groups_stand_over_groups();
    legal_grids_stand_over_grids();
}

/// A term has no more phases than nodes, over work-groups or over rows of these.
pub fn phases_are_few()
    ensures alone { PhasesAreFew }
    ensures in_rows { GridPhasesAreFew }
{}
