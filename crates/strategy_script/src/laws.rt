//! Laws of scripts.

ghost use Rattle.strategy_script.specs.Laws.{FewNodesAreReady, ScriptsEndOnce};

use lift_tree::laws::typed_nodes_type_the_term;
use pattern_types::laws::outputs_belong;

/// A script may be run from any typed term of a proper program that has at most 4,096 nodes.
pub fn few_nodes_are_ready()
    ensures { FewNodesAreReady }
{
    typed_nodes_type_the_term();
    outputs_belong();
}

/// A text is one script, or refused for one cause.
pub fn scripts_end_once()
    ensures { ScriptsEndOnce }
{}
