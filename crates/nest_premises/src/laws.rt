//! Laws of legal terms, each carried by a function that does nothing.

ghost use Rattle.nest_premises.specs.Laws.{
  ElementTestsAgree,
  ElementTypesPass,
  ItemBodiesStand,
  KindsTellTasks,
  LaunchesArePrintable,
  LaunchesStand,
  LegalNestsAreUnbroken,
  LegalTermsCanBeLowered,
  LegalTermsKeepFours,
  LetsAroundMapsBindNoElement,
  RowsAreOnTop,
  TasksArePrintable,
  TasksStand,
  TermsAskForRows,
  UngroupedTermsArePrintable,
};

/// A legal term can be lowered, whatever its maps.
pub fn legal_terms_can_be_lowered()
    ensures { LegalTermsCanBeLowered }
{}

/// What a legal term is lowered to loads and stores each vector as one.
pub fn legal_terms_keep_fours()
    ensures { LegalTermsKeepFours }
{}

/// The kind of a legal term tells whether it has a parallel map.
pub fn kinds_tell_tasks()
    ensures { KindsTellTasks }
{}

/// A legal term that isn't a map over work-groups, or over rows of these, can be printed.
pub fn ungrouped_terms_are_printable()
    ensures { UngroupedTermsArePrintable }
{}

/// A legal term without parallel maps can be printed, for one work-item.
pub fn tasks_are_printable()
    ensures { TasksArePrintable }
{}

/// A legal term with a map over all work-items on top can be printed, for all.
pub fn launches_are_printable()
    ensures { LaunchesArePrintable }
{}

/// What a legal term for one work-item is lowered to stands for one.
pub fn tasks_stand()
    ensures { TasksStand }
{}

/// What a legal term for all work-items is lowered to stands over the launch.
pub fn launches_stand()
    ensures { LaunchesStand }
{}

/// A legal term's maps along dimension 1 tell whether what it is lowered to is in rows, and so what
/// it asks of a launch.
pub fn rows_are_on_top()
    ensures told { RowsAreOnTop }
    ensures asked { TermsAskForRows }
{}

/// In a legal nest no rule is broken at any node, walked from the root.
pub fn legal_nests_are_unbroken()
    ensures { LegalNestsAreUnbroken }
{}

/// Where no rule is broken, the body of a map over the items of a group's row is lowered to what
/// stands for one work-item.
pub fn item_bodies_stand()
    ensures { ItemBodiesStand }
{}

/// Where no rule is broken, a let with a parallel map on top of its body binds no element.
pub fn lets_around_maps_bind_no_element()
    ensures { LetsAroundMapsBindNoElement }
{}

/// The rules of the nest and the lowering test for element types alike, and each such type passes.
pub fn element_tests_agree()
    ensures alike { ElementTestsAgree }
    ensures passed { ElementTypesPass }
{}
