//! One step of a script.

ghost use Rattle.std.specs.Prelude.{◌≡◌, ◌≢◌, Ok, Err, Some, None, IfOk, IfErr, IfSome, OnOk, map};
ghost use Rattle.lift_tree.specs.Annotations.{IsTyped, annotation_of, type_in};
ghost use Rattle.lift_tree.specs.Places.{node_at, with_at};
ghost use Rattle.lift_tree.specs.Programs.{program_of};
ghost use Rattle.lift_tree.specs.Renumbering.{IsRenumberable};
ghost use Rattle.lift_tree.specs.Tree.{tree_of};
ghost use Rattle.lift_tree.specs.Typing.{HasOutput};
ghost use Rattle.lift_tree.specs.Types.{ty_of};
ghost use Rattle.pattern_types.specs.Judged.{AreInputs, program_judged};
ghost use Rattle.lift_tree.specs.declared.term.Term.{Term};
ghost use Rattle.lift_tree.specs.Belonging.{IsProper, IsTermOf};
ghost use Rattle.rewriting.specs.Answers.{Answer, IsRefusal};
ghost use Rattle.rewriting.specs.Around.{around_at, context_of};
ghost use Rattle.rewriting.specs.Keeps.{KeepsIn};
ghost use Rattle.strategy_script.specs.RuleAnswers.{answer};
ghost use Rattle.strategy_script.specs.Steps.{HasSomeOutput, IsAfter, IsReady, answered, at_most, limited};
ghost use Rattle.strategy_script.specs.Steps.{rewritten, state_of, stepped, whole, with_types};
ghost use Rattle.strategy_script.specs.declared.faults.Fault.TheVariants as fault;
ghost use Rattle.strategy_script.specs.declared.faults.Why.TheVariants as whys;

use crate::apply::apply;
use crate::context::around_whole;
use crate::faults::{Fault, StepLimit, Why};
use crate::growth::{inlined_let, nodes_filled};
use crate::places::context_at;
use crate::rule::Rule;
use crate::script::Step;
use lift_tree::laws::typed_nodes_type_the_term;
use lift_tree::place::{Place, at, replaced};
use lift_tree::program::Program;
use lift_tree::term::Term;
use lift_tree::ty::Ty;
use lift_tree::typed::{Context, Typed};
use pattern_types::laws::outputs_belong;
use pattern_types::{TypeRefusal, typed_next};
use rewriting::Refused;
use rewriting::laws::{places_have_contexts, rewrites_keep_the_whole};
use std::alloc::{AllocError, Global};
use std::collections::VecDeque;

/// The most nodes that a term may have after a step.
pub const NODE_LIMIT: u128 = 4096;

/// The greatest height that a term may have after a step.
pub const DEPTH_LIMIT: u128 = 256;

// What a rule's refusal says of the step.
#[tactic(auto, using(crate::proofs::Rewritten::no_shape, crate::proofs::Rewritten::no_side))]
fn fault_of(refused: Refused) -> Fault
    ensures { (a : Answer) (t : Term) → IsRefusal a t refused → result ≢ fault.Memory
        → answered a ≡ Err result }
{
    match refused {
        Refused::Shape(_) => Fault::Stops(Why::Shape),
        Refused::Side(condition, _) => Fault::Stops(Why::Side(condition)),
        Refused::Memory => Fault::Memory,
    }
}

// What the rule makes of the node, in the context of its place.
#[tactic(auto, using(crate::proofs::Rewritten::becomes))]
fn applied(alloc: Global, rule: Rule, node: &Term, around: &Context) -> Result<Term, Fault>
    requires { IsRenumberable (tree_of node.now) }
    ensures ok { IfOk result (λ u.
        answered (answer rule (context_of around.now) (tree_of node.now)) ≡ Ok (tree_of u)) }
    ensures keeps { IfOk result (λ u.
        KeepsIn (context_of around.now) (tree_of node.now) (tree_of u)) }
    ensures refused { IfErr result (λ e. e ≢ fault.Memory
        → answered (answer rule (context_of around.now) (tree_of node.now)) ≡ Err e) }
{
    let node = node.copy(alloc)?;
    match apply(alloc, rule, node, around) {
        Ok(new) => Ok(new),
        Err(refused) => Err(fault_of(refused)),
    }
}

// What stands around the node at the place.
fn around_node(alloc: Global, typed: &Typed, place: &Place) -> Result<Context, Fault>
    requires { IsProper (program_of typed.now.program) }
    ensures found { IfOk result (λ c.
        around_at (whole typed.now) (tree_of typed.now.term) place.now ≡ Some (context_of c)) }
    ensures none { IfErr result (λ e. e ≢ fault.Memory → (e ≡ fault.Stops whys.NoPlace)
        × (around_at (whole typed.now) (tree_of typed.now.term) place.now ≡ None)) }
{
    let context = around_whole(alloc, typed)?;
    match context_at(alloc, context, &typed.term, place)? {
        Some(around) => Ok(around),
        None => Err(Fault::Stops(Why::NoPlace)),
    }
}

// A copy of the term, with another node at the place.
fn copy_with(alloc: Global, term: &Term, place: &Place, new: Term) -> Result<Term, AllocError>
    requires { node_at (tree_of term.now) place.now ≢ None }
    ensures { IfOk result (λ t.
        with_at (tree_of term.now) place.now (tree_of new) ≡ Some (tree_of t)) }
{
    let term = term.copy(alloc)?;
    match replaced(term, place, new) {
        Ok(term) => Ok(term),
        Err(_) => unreachable!(),
    }
}

// The term after a step, before its limits and types are judged. It has an output's type, and names
// what the program declares.
#[tactic(auto, using(crate::proofs::Rewritten::no_node, crate::proofs::Rewritten::nothing_around, crate::proofs::Rewritten::rewrites, crate::proofs::Rewritten::stops))]
fn rewritten(alloc: Global, typed: &Typed, step: &Step) -> Result<Term, Fault>
    requires { IsReady typed.now }
    ensures ok { IfOk result (λ t.
        rewritten step.now (whole typed.now) (tree_of typed.now.term) ≡ Ok (tree_of t)) }
    ensures keeps { IfOk result (λ t.
        KeepsIn (whole typed.now) (tree_of typed.now.term) (tree_of t)) }
    ensures output { IfOk result (λ t. HasOutput (program_of typed.now.program) (tree_of t)
        (type_in (annotation_of typed.now.types))) }
    ensures belongs { IfOk result (λ t. IsTermOf (program_of typed.now.program) (tree_of t)) }
    ensures refused { IfErr result (λ e. e ≢ fault.Memory
        → rewritten step.now (whole typed.now) (tree_of typed.now.term) ≡ Err e) }
{
    typed_nodes_type_the_term();
    outputs_belong();
    places_have_contexts();
    rewrites_keep_the_whole();
    let Some(node) = at(&typed.term, &step.place) else {
        return Err(Fault::Stops(Why::NoPlace));
    };
    let around = around_node(alloc, typed, &step.place)?;
    let new = applied(alloc, step.rule, node, &around)?;
    let term = copy_with(alloc, &typed.term, &step.place, new)?;
    Ok(term)
}

fn check_at_most(most: u128, which: StepLimit, count: u128) -> Result<(), Fault>
    ensures ok { OnOk result (at_most most which count ≡ Ok tt) }
    ensures refused { IfErr result (λ f. at_most most which count ≡ Err f) }
{
    if count > most {
        return Err(Fault::Passes(which, count));
    }
    Ok(())
}

// Whether the term is within the limits on nodes and height, judged in this order.
fn check_limits(term: &Term) -> Result<(), Fault>
    ensures ok { OnOk result (limited (tree_of term.now) ≡ Ok tt) }
    ensures refused { IfErr result (λ f. limited (tree_of term.now) ≡ Err f) }
{
    check_at_most(NODE_LIMIT, StepLimit::Nodes, u128::from(term.node_count()))?;
    check_at_most(DEPTH_LIMIT, StepLimit::Depth, u128::from(term.depth()))
}

// Refuses the step where it puts a let's value into its body, and that makes too many nodes: before
// they are made.
fn check_inlined(alloc: Global, typed: &Typed, step: &Step) -> Result<(), Fault>
    requires { IsReady typed.now }
    ensures { IfErr result (λ e. e ≢ fault.Memory
        → stepped (program_of typed.now.program) step.now (state_of typed.now) ≡ Err e) }
{
    places_have_contexts();
    let Some((value, body)) = inlined_let(&typed.term, step) else {
        return Ok(());
    };
    let inlined = nodes_filled(body, value.node_count(), 0);
    if u128::from(inlined) <= NODE_LIMIT {
        return Ok(());
    }
    let rest = copy_with(alloc, &typed.term, &step.place, Term::Number(0))?.node_count() - 1;
    let nodes = u128::from(rest.saturating_add(inlined));
    Err(Fault::Passes(StepLimit::Nodes, nodes))
}

// The term after a step, within the limits on nodes and height, before its types are judged.
#[tactic(auto, using(crate::proofs::Stepping::not_rewritten, crate::proofs::Stepping::not_limited, crate::proofs::Stepping::some_output))]
fn next_term(alloc: Global, typed: &Typed, step: &Step) -> Result<Term, Fault>
    requires { IsReady typed.now }
    ensures ok { IfOk result (λ t.
        rewritten step.now (whole typed.now) (tree_of typed.now.term) ≡ Ok (tree_of t)) }
    ensures within { IfOk result (λ t. limited (tree_of t) ≡ Ok tt) }
    ensures keeps { IfOk result (λ t.
        KeepsIn (whole typed.now) (tree_of typed.now.term) (tree_of t)) }
    ensures output { IfOk result (λ t.
        HasSomeOutput (program_of typed.now.program) (tree_of t)) }
    ensures belongs { IfOk result (λ t. IsTermOf (program_of typed.now.program) (tree_of t)) }
    ensures refused { IfErr result (λ e. e ≢ fault.Memory
        → stepped (program_of typed.now.program) step.now (state_of typed.now) ≡ Err e) }
{
    check_inlined(alloc, typed, step)?;
    let term = rewritten(alloc, typed, step)?;
    check_limits(&term)?;
    Ok(term)
}

// A term of the program that has an output's type, with its types; or the limit on types that it
// passes.
#[tactic(auto, using(crate::proofs::Stepping::with_limit, crate::proofs::Stepping::no_output))]
fn with_types(
    alloc: Global,
    known: &mut Option<VecDeque<Ty>>,
    program: Program,
    term: Term,
) -> Result<Typed, Fault>
    requires proper { IsProper (program_of program) }
    requires known { IfSome known.old (λ inputs. AreInputs (program_of program)
        (map ty_of inputs.items)) }
    requires belongs { IsTermOf (program_of program) (tree_of term) }
    requires output { HasSomeOutput (program_of program) (tree_of term) }
    ensures known { IfSome known.new (λ inputs. AreInputs (program_of program)
        (map ty_of inputs.items)) }
    ensures same { IfOk result (λ t. (t.program ≡ program) × (t.term ≡ term)) }
    ensures typed { IfOk result IsTyped }
    ensures types { IfOk result (λ t. program_judged (program_of program) (tree_of term)
        ≡ Ok (annotation_of t.types)) }
    ensures refused { IfErr result (λ e. e ≢ fault.Memory
        → with_types (tree_of term) (program_judged (program_of program) (tree_of term)) ≡ Err e) }
{
    match typed_next(alloc, known, program, term) {
        Ok(next) => Ok(next),
        Err(TypeRefusal::Limit { which, count, .. }) => {
            Err(Fault::Passes(StepLimit::Types(which), count))
        }
        Err(TypeRefusal::IllTyped { .. }) => unreachable!(),
        Err(TypeRefusal::Memory) => Err(Fault::Memory),
    }
}

/// The term after a step, with its types. Its nodes, its height and the limits on types are judged
/// in this order.
#[tactic(auto, using(crate::proofs::Stepping::steps_to, crate::proofs::Stepping::not_typed, crate::proofs::Stepping::is_after, crate::proofs::Stepping::is_ready, crate::proofs::Stepping::proper_same, crate::proofs::Stepping::term_of_same, crate::proofs::Stepping::output_same))]
pub fn stepped(
    alloc: Global,
    known: &mut Option<VecDeque<Ty>>,
    typed: &Typed,
    step: &Step,
) -> Result<Typed, Fault>
    requires ready { IsReady typed.now }
    requires known { IfSome known.old (λ inputs. AreInputs (program_of typed.now.program)
        (map ty_of inputs.items)) }
    ensures known { IfSome known.new (λ inputs. AreInputs (program_of typed.now.program)
        (map ty_of inputs.items)) }
    ensures state { IfOk result (λ t.
        stepped (program_of typed.now.program) step.now (state_of typed.now) ≡ Ok (state_of t)) }
    ensures after { IfOk result (λ t. IsAfter typed.now t) }
    ensures ready { IfOk result (λ t. IsReady t) }
    ensures refused { IfErr result (λ e. e ≢ fault.Memory
        → stepped (program_of typed.now.program) step.now (state_of typed.now) ≡ Err e) }
{
    let term = next_term(alloc, typed, step)?;
    let program = typed.program.copy(alloc)?;
    with_types(alloc, known, program, term)
}

/// The same of a term that isn't wanted any longer: its program is moved on.
#[tactic(auto, using(crate::proofs::Stepping::steps_to, crate::proofs::Stepping::not_typed, crate::proofs::Stepping::is_after, crate::proofs::Stepping::is_ready))]
pub fn stepped_on(
    alloc: Global,
    known: &mut Option<VecDeque<Ty>>,
    typed: Typed,
    step: &Step,
) -> Result<Typed, Fault>
    requires ready { IsReady typed }
    requires known { IfSome known.old (λ inputs. AreInputs (program_of typed.program)
        (map ty_of inputs.items)) }
    ensures known { IfSome known.new (λ inputs. AreInputs (program_of typed.program)
        (map ty_of inputs.items)) }
    ensures state { IfOk result (λ t.
        stepped (program_of typed.program) step.now (state_of typed) ≡ Ok (state_of t)) }
    ensures after { IfOk result (λ t. IsAfter typed t) }
    ensures ready { IfOk result (λ t. IsReady t) }
    ensures refused { IfErr result (λ e. e ≢ fault.Memory
        → stepped (program_of typed.program) step.now (state_of typed) ≡ Err e) }
{
    let term = next_term(alloc, &typed, step)?;
    with_types(alloc, known, typed.program, term)
}
