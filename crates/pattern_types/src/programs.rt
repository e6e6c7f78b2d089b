//! The types of a program: its inputs in order, then the term.

ghost use Rattle.std.specs.Prelude.{◌≡◌, ◌≢◌, ◌≤◌, ◌<◌, ◌+◌, IfErr, IfOk, IfSome, OnOk, Err, Ok, [], ◌∷◌, length, map};
ghost use Rattle.lift_tree.specs.InputTypes.{written_of};
ghost use Rattle.lift_tree.specs.Types.{ty_of, PairOf};
ghost use Rattle.lift_tree.specs.Tree.{tree_of};
ghost use Rattle.lift_tree.specs.Lists.{Every};
ghost use Rattle.lift_tree.specs.Programs.{PlainInput, input_of, program_of};
ghost use Rattle.lift_tree.specs.Typing.{IsDeclared, declared_by};
ghost use Rattle.lift_tree.specs.Annotations.{annotation_of, IsTyped};
ghost use Rattle.pattern_types.specs.declared.fault.Fault.TheVariants.{Memory};
ghost use Rattle.pattern_types.specs.declared.refusal.TypeRefusal.TheVariants as refusal;
ghost use Rattle.lift_tree.specs.Belonging.{Belongs, TypeIsNamed, InputsAreNamed, IsProper, IsTermOf};
ghost use Rattle.pattern_types.specs.Judged.{and_then, input_judged, inputs_judged, judged, output_judged, program_judged, AreInputs};
ghost use Rattle.lift_tree.specs.WorkedOut.{range_of};
ghost use Rattle.pattern_types.specs.Numbers.{NumbersFit};
ghost use Rattle.lift_tree.specs.Limits.{InputFits, IsWithinLimits, HasProperInputs};
ghost use Rattle.pattern_types.specs.Judgement.{Explains};
ghost use Rattle.pattern_types.specs.Scopes.{declared_as};

use crate::arrays::{formed, is_output};
use crate::fault::{Fault, NodeFault, demanded};
use crate::lengths::with_parts;
use crate::nodes::judge;
use crate::refusal::{Rule, Spot, TypeRefusal};
use lift_tree::input_type::InputType;
use lift_tree::program::{Input, Program};
use lift_tree::term::Term;
use lift_tree::ty::Ty;
use lift_tree::typed::{NodeTypes, Typed};
use size_arith::{Names, Poly};
use std::alloc::{AllocError, Global};
use std::collections::VecDeque;

fn pair_of(alloc: Global, a: Ty, b: Ty) -> Result<Ty, AllocError>
    ensures { IfOk result (λ t. ty_of t ≡ PairOf (ty_of a) (ty_of b)) }
{
    let a = Box::new(alloc, a)?;
    Ok(Ty::Pair(a, Box::new(alloc, b)?))
}

// The type of an input, with its lengths worked out.
fn judge_input(alloc: Global, names: &Names, ty: &InputType) -> Result<Ty, Fault>
    requires { TypeIsNamed (length names.now) (written_of ty.now) }
    ensures ok { IfOk result (λ t. input_judged names.now (written_of ty.now) ≡ Ok (ty_of t)) }
    ensures refused { IfErr result (λ f. f ≢ Memory → input_judged names.now (written_of ty.now)
        ≡ Err f) }
{
    match ty {
        InputType::Number => Ok(Ty::Number),
        InputType::Pair(a, b) => {
            let a = judge_input(alloc, names, a)?;
            let b = judge_input(alloc, names, b)?;
            Ok(pair_of(alloc, a, b)?)
        }
        InputType::Array(element, parts) => {
            let element = judge_input(alloc, names, element)?;
            let size = with_parts(alloc, names, Poly::zero(alloc), parts.parts())?;
            formed(alloc, names, element, size)
        }
    }
}

fn with_first(types: &mut VecDeque<Ty>, first: Ty) -> Result<(), AllocError>
    ensures { OnOk result (map ty_of types.new.items ≡ ty_of first ∷ map ty_of types.old.items) }
{
    types.push_front(first)?;
    Ok(())
}

// The types of the inputs, of which the first has this number.
fn judge_inputs(
    alloc: Global,
    names: &Names,
    number: u64,
    inputs: &[Input],
) -> Result<VecDeque<Ty>, TypeRefusal>
    requires named { InputsAreNamed (length names.now) (map input_of inputs.now) }
    requires room { number + length inputs.now ≤ u64.MAX }
    ensures count { IfOk result (λ types. length (map ty_of types.items)
        ≡ length (map input_of inputs.now)) }
    ensures ok { IfOk result (λ types. inputs_judged names.now number (map input_of inputs.now)
        ≡ Ok (map ty_of types.items)) }
    ensures refused { IfErr result (λ e. e ≢ refusal.Memory
        → inputs_judged names.now number (map input_of inputs.now) ≡ Err e) }
{
    match inputs {
        [] => Ok(VecDeque::new(alloc)),
        [first, rest @ ..] => {
            let ty = match judge_input(alloc, names, &first.ty) {
                Ok(ty) => ty,
                Err(fault) => return Err(fault.at(Spot::Input(number))),
            };
            let mut types = judge_inputs(alloc, names, number + 1, rest)?;
            match with_first(&mut types, ty) {
                Ok(()) => Ok(types),
                Err(_) => Err(TypeRefusal::Memory),
            }
        }
    }
}

/// The types of a program's inputs, in their order, where they have types within the limits, as
/// they do wherever a term of the program is typed within them.
pub fn input_types(alloc: Global, program: &Program) -> Result<Vec<Ty>, AllocError>
    requires proper { IsProper (program_of program.now) }
    requires declared { IsDeclared (declared_by (program_of program.now)) }
    requires within { Every (λ (i : PlainInput). InputFits
        (declared_by (program_of program.now)).names i.ty) (program_of program.now).inputs }
    ensures { IfOk result
        (λ types. map ty_of types.items ≡ (declared_by (program_of program.now)).inputs) }
{
    let names = program.names(alloc)?;
    match judge_inputs(alloc, &names, 0, &program.inputs) {
        Ok(types) => Ok(Vec::from(types)),
        Err(TypeRefusal::Memory) => Err(AllocError),
        Err(TypeRefusal::IllTyped { .. }) => unreachable!(),
        Err(TypeRefusal::Limit { .. }) => unreachable!(),
    }
}

// The term's types, of which the root's is an output's.
fn judge_output(
    alloc: Global,
    names: &Names,
    inputs: &VecDeque<Ty>,
    term: &Term,
) -> Result<NodeTypes, NodeFault>
    requires { Belongs (length names.now) (length (map ty_of inputs.now.items)) 0
        (tree_of term.now) }
    ensures numbers { IfOk result (λ _. NumbersFit (tree_of term.now)) }
    ensures ok { IfOk result (λ n. and_then (judged (declared_as names.now inputs.now.items) []
        (tree_of term.now)) output_judged ≡ Ok (annotation_of n)) }
    ensures refused { IfErr result (λ e. e.fault ≢ Memory
        → and_then (judged (declared_as names.now inputs.now.items) []
        (tree_of term.now)) output_judged ≡ Err e) }
{
    let types = judge(alloc, names, inputs, &mut VecDeque::new(alloc), term)?;
    match demanded(is_output(types.own_type()), Rule::Output) {
        Ok(()) => Ok(types),
        Err(fault) => Err(fault.of_root(alloc)),
    }
}

/// The types of all nodes of a term of a program, for all its admissible sizes at once.
///
/// The program's inputs are judged in order, then the term, children before their parent and a body
/// once its binders have types, and last the output. Each array that is formed has a length shown
/// to be at least 1, and then the limits on arrays, components, terms, degree, coefficient and
/// scalars are judged, inner arrays first. Lengths are worked out from left to right, and each sum
/// and product is limited as it arises. `IllTyped` and `Limit` are of the first spot that breaks a
/// rule or passes a limit, in this order.
///
/// What is answered is typed, within the limits: the sizes and inputs are proper, each node has its
/// type, and the whole an output's; each array that is formed and each length that is worked out
/// passes no limit. `IllTyped` comes only where the term has no type, and `Limit` only where it has
/// none within the limits. Want of memory may come at any point.
///
/// Each variable has its binder in the term. The inputs and sizes that the term names are the
/// program's, as are the sizes that its inputs name. The inputs are arrays, and their pairs hold
/// elements only. There are at most 8 sizes, each with a proper range, and the numbers of `div`,
/// `rem`, `split` and `slide` are at least 1. A term that is known to have an output's type meets
/// this ([`outputs_belong`](crate::laws::outputs_belong)).
pub fn type_of(alloc: Global, program: Program, term: Term) -> Result<Typed, TypeRefusal>
    requires proper { IsProper (program_of program) }
    requires term { IsTermOf (program_of program) (tree_of term) }
    ensures program { IfOk result (λ t. (t.program ≡ program) × (t.term ≡ term)) }
    ensures types { IfOk result (λ t. program_judged (program_of program) (tree_of term)
        ≡ Ok (annotation_of t.types)) }
    ensures typed { IfOk result IsTyped }
    ensures within { IfOk result (λ t. IsWithinLimits (program_of program) (tree_of term)
        (annotation_of t.types)) }
    ensures inputs { IfOk result (λ t. HasProperInputs (program_of t.program)) }
    ensures explained { IfErr result (λ e. Explains e (program_of program) (tree_of term)) }
    ensures refused { IfErr result (λ e. e ≢ refusal.Memory
        → program_judged (program_of program) (tree_of term) ≡ Err e) }
{
    typed_next(alloc, &mut None, program, term)
}

/// The same as [`type_of`] says, where the types of the program's inputs are known already, if they
/// are given. They are known afterwards, wherever a term was typed.
pub fn typed_next(
    alloc: Global,
    known: &mut Option<VecDeque<Ty>>,
    program: Program,
    term: Term,
) -> Result<Typed, TypeRefusal>
    requires proper { IsProper (program_of program) }
    requires term { IsTermOf (program_of program) (tree_of term) }
    requires known { IfSome known.old (λ inputs. AreInputs (program_of program) (map ty_of inputs.items)) }
    ensures known { IfSome known.new (λ inputs. AreInputs (program_of program) (map ty_of inputs.items)) }
    ensures program { IfOk result (λ t. (t.program ≡ program) × (t.term ≡ term)) }
    ensures types { IfOk result (λ t. program_judged (program_of program) (tree_of term)
        ≡ Ok (annotation_of t.types)) }
    ensures typed { IfOk result IsTyped }
    ensures within { IfOk result (λ t. IsWithinLimits (program_of program) (tree_of term)
        (annotation_of t.types)) }
    ensures inputs { IfOk result (λ t. HasProperInputs (program_of t.program)) }
    ensures explained { IfErr result (λ e. Explains e (program_of program) (tree_of term)) }
    ensures refused { IfErr result (λ e. e ≢ refusal.Memory
        → program_judged (program_of program) (tree_of term) ≡ Err e) }
{
    let types = judge_program(alloc, known, &program, &term)?;
    Ok(Typed {
        program,
        term,
        types,
    })
}

// The types of a program's term, where its inputs have these.
fn judge_term(
    alloc: Global,
    names: &Names,
    inputs: &VecDeque<Ty>,
    program: &Program,
    term: &Term,
) -> Result<NodeTypes, TypeRefusal>
    requires names { names.now ≡ map range_of (program_of program.now).sizes }
    requires inputs { AreInputs (program_of program.now) (map ty_of inputs.now.items) }
    requires term { IsTermOf (program_of program.now) (tree_of term.now) }
    ensures numbers { IfOk result (λ _. NumbersFit (tree_of term.now)) }
    ensures types { IfOk result (λ n. program_judged (program_of program.now) (tree_of term.now)
        ≡ Ok (annotation_of n)) }
    ensures refused { IfErr result (λ e. e ≢ refusal.Memory
        → program_judged (program_of program.now) (tree_of term.now) ≡ Err e) }
{
    match judge_output(alloc, names, inputs, term) {
        Ok(types) => Ok(types),
        Err(fault) => Err(fault.fault.at(Spot::Node(fault.place))),
    }
}

fn judge_program(
    alloc: Global,
    known: &mut Option<VecDeque<Ty>>,
    program: &Program,
    term: &Term,
) -> Result<NodeTypes, TypeRefusal>
    requires proper { IsProper (program_of program.now) }
    requires term { IsTermOf (program_of program.now) (tree_of term.now) }
    requires known { IfSome known.old (λ inputs. AreInputs (program_of program.now) (map ty_of inputs.items)) }
    ensures known { IfSome known.new (λ inputs. AreInputs (program_of program.now) (map ty_of inputs.items)) }
    ensures numbers { IfOk result (λ _. NumbersFit (tree_of term.now)) }
    ensures types { IfOk result (λ n. program_judged (program_of program.now) (tree_of term.now)
        ≡ Ok (annotation_of n)) }
    ensures refused { IfErr result (λ e. e ≢ refusal.Memory
        → program_judged (program_of program.now) (tree_of term.now) ≡ Err e) }
{
    let Ok(names) = program.names(alloc) else {
        return Err(TypeRefusal::Memory);
    };
    if let Some(inputs) = known {
        return judge_term(alloc, &names, inputs, program, term);
    }
    let inputs = judge_inputs(alloc, &names, 0, &program.inputs)?;
    let types = judge_term(alloc, &names, &inputs, program, term)?;
    *known = Some(inputs);
    Ok(types)
}
