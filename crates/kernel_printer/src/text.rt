//! The one text of a kernel.

ghost use Rattle.std.specs.Prelude.{◌≡◌, ◌++◌, ◌+◌, ◌<◌, ◌^◌, ◌-◌, IfOk, OnOk, List, ℕ, decimal, length, map};
ghost use Rattle.kernel_tree.specs.Code.{Code, End, Performs, Assigns, Loads, Stores, AssignsFour, LoadsFour, StoresFour, Syncs};
ghost use Rattle.kernel_tree.specs.Kernels.{kernel_of};
ghost use Rattle.kernel_tree.specs.KernelText.{IsKernelText, lift, indent, named, array_name};
ghost use Rattle.kernel_tree.specs.Tree.{id_of, comparison_of, formula_of, lanes_of, array_of, start_of, stride_of, before, code_then};
ghost use Rattle.kernel_printer.specs.Bytes.{id_begins, id_ends, id_text, opening, between, comparing, write_expression, write_lanes, write_end, start_text, stride_text, write_loop, write_guard, flags_text, write_inputs, write_outputs, write_sizes, write_arrays, write_variables, write_vectors, write_launching, write_head, write_kernel, IsPut};
ghost use Rattle.kernel_spelling.specs.SequenceText.{AreTexts};
ghost use Rattle.kernel_spelling.specs.Spelling.{IsName};
ghost use Rattle.kernel_printer.specs.Depths.{StandWithin};

use crate::place::Place;
use itoa::Buffer;
use kernel_spelling::{one_text, sequence_name, sequences_have_one_text};
use kernel_tree::laws::blocks;
use kernel_tree::tree::{
    Array, Comparison, Dimension, Expr, IdForm, Kernel, Lanes, Start, Stmt, Stride,
};
use scalar_ops::op::Op;
use std::alloc::{AllocError, Global};

fn print_number(text: &mut Vec<u8>, number: u32) -> Result<(), AllocError>
    ensures { OnOk result (text.new.items ≡ text.old.items ++ decimal number) }
{
    let mut buffer = Buffer::new();
    text.extend_from_slice(buffer.format(number).as_bytes())
}

/// Puts a letter and a number behind the text.
fn print_name(text: &mut Vec<u8>, letter: u8, number: u32) -> Result<(), AllocError>
    ensures { OnOk result (text.new.items ≡ text.old.items ++ named letter number) }
{
    text.extend_from_slice(&[letter])?;
    print_number(text, number)?;
    Ok(())
}

fn print_array(text: &mut Vec<u8>, array: Array) -> Result<(), AllocError>
    ensures { OnOk result (text.new.items ≡ text.old.items ++ array_name (array_of array)) }
{
    match array {
        Array::Input(k) => print_name(text, b'a', k),
        Array::Output(k) => print_name(text, b'o', k),
        Array::Local(k) => print_name(text, b'l', k),
        Array::Private(k) => print_name(text, b'p', k),
    }
}

/// Puts the spaces of so many levels behind the text.
fn print_indent(text: &mut Vec<u8>, level: u32) -> Result<(), AllocError>
    ensures { OnOk result (text.new.items ≡ text.old.items ++ indent level) }
{
    for _i in 0..level {
        text.extend_from_slice(b"  ")?;
    }
    Ok(())
}

/// Puts an id behind the text, before its dimension.
fn print_id_name(text: &mut Vec<u8>, form: IdForm) -> Result<(), AllocError>
    ensures { OnOk result (text.new.items ≡ text.old.items ++ id_begins (id_of form)) }
{
    match form {
        IdForm::GlobalId => text.extend_from_slice(b"(uint)get_global_id("),
        IdForm::GroupId => text.extend_from_slice(b"(uint)get_group_id("),
        IdForm::LocalId => text.extend_from_slice(b"(uint)get_local_id("),
        IdForm::GlobalSize => text.extend_from_slice(b"(uint)get_global_size("),
        IdForm::GroupCount => text.extend_from_slice(b"(uint)get_num_groups("),
        IdForm::LocalSize => text.extend_from_slice(b"(uint)get_local_size("),
    }
}

/// Puts an id's dimension behind the text, and what closes it.
fn print_dimension(text: &mut Vec<u8>, along: Dimension) -> Result<(), AllocError>
    ensures { OnOk result (text.new.items ≡ text.old.items ++ id_ends along) }
{
    match along {
        Dimension::X => text.extend_from_slice(b"0)"),
        Dimension::Y => text.extend_from_slice(b"1)"),
    }
}

fn print_id(text: &mut Vec<u8>, along: Dimension, form: IdForm) -> Result<(), AllocError>
    ensures { OnOk result (text.new.items ≡ text.old.items ++ id_text along (id_of form)) }
{
    print_id_name(text, form)?;
    print_dimension(text, along)?;
    Ok(())
}

/// Puts what stands before an operator's operands behind the text.
fn print_opening(text: &mut Vec<u8>, op: Op) -> Result<(), AllocError>
    ensures { OnOk result (text.new.items ≡ text.old.items ++ opening op) }
{
    match op {
        Op::Min => text.extend_from_slice(b"min("),
        Op::Max => text.extend_from_slice(b"max("),
        _ => text.extend_from_slice(b"("),
    }
}

/// Puts what stands between an operator's operands behind the text.
fn print_between(text: &mut Vec<u8>, op: Op) -> Result<(), AllocError>
    ensures { OnOk result (text.new.items ≡ text.old.items ++ between op) }
{
    match op {
        Op::Add => text.extend_from_slice(b" + "),
        Op::Sub => text.extend_from_slice(b" - "),
        Op::Mul => text.extend_from_slice(b" * "),
        Op::Div => text.extend_from_slice(b" / "),
        Op::Rem => text.extend_from_slice(b" % "),
        Op::And => text.extend_from_slice(b" & "),
        Op::Or => text.extend_from_slice(b" | "),
        Op::Xor => text.extend_from_slice(b" ^ "),
        Op::Shl => text.extend_from_slice(b" << "),
        Op::Shr => text.extend_from_slice(b" >> "),
        Op::Lt => text.extend_from_slice(b" < "),
        Op::Eq => text.extend_from_slice(b" == "),
        Op::Min => text.extend_from_slice(b", "),
        Op::Max => text.extend_from_slice(b", "),
    }
}

fn print_comparison(text: &mut Vec<u8>, comparison: Comparison) -> Result<(), AllocError>
    ensures { let c = comparison_of comparison in
        OnOk result (text.new.items ≡ text.old.items ++ comparing c) }
{
    match comparison {
        Comparison::Less => text.extend_from_slice(b" < "),
        Comparison::Equal => text.extend_from_slice(b" == "),
    }
}

fn print_expression(text: &mut Vec<u8>, expression: &Expr) -> Result<(), AllocError>
    ensures { let e = formula_of expression.now in
        OnOk result (text.new.items ≡ write_expression text.old.items e) }
{
    match expression {
        Expr::Number(number) => {
            print_number(text, *number)?;
            text.extend_from_slice(b"u")?;
            Ok(())
        }
        Expr::Variable(k) => print_name(text, b'v', *k),
        Expr::LoopVariable(k) => print_name(text, b'i', *k),
        Expr::Size(k) => print_name(text, b's', *k),
        Expr::Id(along, form) => print_id(text, *along, *form),
        Expr::Binary(op, left, right) => {
            print_opening(text, *op)?;
            print_expression(text, left)?;
            print_between(text, *op)?;
            print_expression(text, right)?;
            text.extend_from_slice(b")")?;
            Ok(())
        }
        Expr::Choose(comparison, left, right, yes, no) => {
            text.extend_from_slice(b"(")?;
            print_expression(text, left)?;
            print_comparison(text, *comparison)?;
            print_expression(text, right)?;
            text.extend_from_slice(b" ? ")?;
            print_expression(text, yes)?;
            text.extend_from_slice(b" : ")?;
            print_expression(text, no)?;
            text.extend_from_slice(b")")?;
            Ok(())
        }
    }
}

fn print_lanes(text: &mut Vec<u8>, lanes: &Lanes) -> Result<(), AllocError>
    ensures { let e = lanes_of lanes.now in
        OnOk result (text.new.items ≡ write_lanes text.old.items e) }
{
    match lanes {
        Lanes::Vector(k) => print_name(text, b'w', *k),
        Lanes::Spread(word) => {
            text.extend_from_slice(b"(uint4)(")?;
            print_expression(text, word)?;
            text.extend_from_slice(b")")?;
            Ok(())
        }
        Lanes::Each(op, left, right) => {
            print_opening(text, *op)?;
            print_lanes(text, left)?;
            print_between(text, *op)?;
            print_lanes(text, right)?;
            text.extend_from_slice(b")")?;
            Ok(())
        }
    }
}

fn print_start(text: &mut Vec<u8>, start: Start) -> Result<(), AllocError>
    ensures { OnOk result (text.new.items ≡ text.old.items ++ start_text (start_of start)) }
{
    match start {
        Start::Zero => text.extend_from_slice(b"0u"),
        Start::GlobalId(along) => print_id(text, along, IdForm::GlobalId),
        Start::GroupId(along) => print_id(text, along, IdForm::GroupId),
        Start::LocalId(along) => print_id(text, along, IdForm::LocalId),
    }
}

fn print_stride(text: &mut Vec<u8>, stride: Stride) -> Result<(), AllocError>
    ensures { OnOk result (text.new.items ≡ text.old.items ++ stride_text (stride_of stride)) }
{
    match stride {
        Stride::One => text.extend_from_slice(b"1u"),
        Stride::GlobalSize(along) => print_id(text, along, IdForm::GlobalSize),
        Stride::GroupCount(along) => print_id(text, along, IdForm::GroupCount),
        Stride::LocalSize(along) => print_id(text, along, IdForm::LocalSize),
    }
}

/// Puts the line of a loop behind the text, with its brace.
fn print_loop(
    text: &mut Vec<u8>,
    place: Place,
    start: Start,
    bound: &Expr,
    stride: Stride,
) -> Result<(), AllocError>
    ensures { let s = start_of start in
        let b = formula_of bound.now in
        let c = stride_of stride in
        OnOk result (text.new.items ≡ write_loop place.loops place.nest text.old.items s b c) }
{
    print_indent(text, place.nest + 1)?;
    text.extend_from_slice(b"for (uint ")?;
    print_name(text, b'i', place.loops)?;
    text.extend_from_slice(b" = ")?;
    print_start(text, start)?;
    text.extend_from_slice(b"; ")?;
    print_name(text, b'i', place.loops)?;
    text.extend_from_slice(b" < ")?;
    print_expression(text, bound)?;
    text.extend_from_slice(b"; ")?;
    print_name(text, b'i', place.loops)?;
    text.extend_from_slice(b" += ")?;
    print_stride(text, stride)?;
    text.extend_from_slice(b") {\n")?;
    Ok(())
}

/// Puts the line of an `if` behind the text, with its brace.
fn print_if(text: &mut Vec<u8>, place: Place, start: Start, bound: &Expr) -> Result<(), AllocError>
    ensures { let s = start_of start in
        let b = formula_of bound.now in
        OnOk result (text.new.items ≡ write_guard place.nest text.old.items s b) }
{
    print_indent(text, place.nest + 1)?;
    text.extend_from_slice(b"if (")?;
    print_start(text, start)?;
    text.extend_from_slice(b" < ")?;
    print_expression(text, bound)?;
    text.extend_from_slice(b") {\n")?;
    Ok(())
}

fn print_inputs(text: &mut Vec<u8>, count: u32) -> Result<(), AllocError>
    ensures { OnOk result (text.new.items ≡ write_inputs text.old.items count) }
{
    for i in 0..count {
        text.extend_from_slice(b"__global const uint *")?;
        print_name(text, b'a', i)?;
        text.extend_from_slice(b", ")?;
    }
    Ok(())
}

/// Puts the first output and so many more behind the text.
fn print_outputs(text: &mut Vec<u8>, more: u32) -> Result<(), AllocError>
    requires { more + 1 < 2 ^ 32 }
    ensures { OnOk result (text.new.items ≡ write_outputs text.old.items more) }
{
    text.extend_from_slice(b"__global uint *")?;
    print_name(text, b'o', 0)?;
    for i in 0..more {
        text.extend_from_slice(b", __global uint *")?;
        print_name(text, b'o', i + 1)?;
    }
    Ok(())
}

fn print_sizes(text: &mut Vec<u8>, count: u32) -> Result<(), AllocError>
    ensures { OnOk result (text.new.items ≡ write_sizes text.old.items count) }
{
    for i in 0..count {
        text.extend_from_slice(b", const uint ")?;
        print_name(text, b's', i)?;
    }
    Ok(())
}

/// Puts the declarations of arrays of these lengths behind the text, each with its type before its
/// letter.
fn print_arrays(
    text: &mut Vec<u8>,
    before: &[u8],
    letter: u8,
    lengths: &[u32],
) -> Result<(), AllocError>
    requires { length lengths.now < 2 ^ 32 }
    ensures { let front = text.old.items in
        OnOk result (text.new.items ≡ write_arrays before.now letter front 0 lengths.now) }
{
    for i in 0..lengths.len() {
        print_indent(text, 1)?;
        text.extend_from_slice(before)?;
        print_name(text, letter, i as u32)?;
        text.extend_from_slice(b"[")?;
        print_number(text, lengths[i])?;
        text.extend_from_slice(b"];\n")?;
    }
    Ok(())
}

fn print_variables(text: &mut Vec<u8>, count: u32) -> Result<(), AllocError>
    ensures { OnOk result (text.new.items ≡ write_variables text.old.items count) }
{
    for i in 0..count {
        print_indent(text, 1)?;
        text.extend_from_slice(b"uint ")?;
        print_name(text, b'v', i)?;
        text.extend_from_slice(b";\n")?;
    }
    Ok(())
}

fn print_vectors(text: &mut Vec<u8>, count: u32) -> Result<(), AllocError>
    ensures { OnOk result (text.new.items ≡ write_vectors text.old.items count) }
{
    for i in 0..count {
        print_indent(text, 1)?;
        text.extend_from_slice(b"uint4 ")?;
        print_name(text, b'w', i)?;
        text.extend_from_slice(b";\n")?;
    }
    Ok(())
}

/// Puts the end of a block within so many loops and `if`s behind the text.
fn print_end(text: &mut Vec<u8>, nest: u32) -> Result<(), AllocError>
    ensures { OnOk result (text.new.items ≡ write_end nest text.old.items) }
{
    print_indent(text, nest)?;
    text.extend_from_slice(b"}\n")?;
    Ok(())
}

/// Puts an assignment behind the text.
fn print_assign(
    text: &mut Vec<u8>,
    place: Place,
    variable: u32,
    value: &Expr,
) -> Result<(), AllocError>
    ensures { let s = Assigns variable (formula_of value.now) in
        OnOk result (IsPut place.loops place.nest (Performs s) text.old.items text.new.items) }
{
    print_indent(text, place.nest + 1)?;
    print_name(text, b'v', variable)?;
    text.extend_from_slice(b" = ")?;
    print_expression(text, value)?;
    text.extend_from_slice(b";\n")?;
    Ok(())
}

/// Puts a load behind the text.
fn print_load(
    text: &mut Vec<u8>,
    place: Place,
    variable: u32,
    array: Array,
    index: &Expr,
) -> Result<(), AllocError>
    ensures { let i = formula_of index.now in
        let s = Loads variable (array_of array) i in
        OnOk result (IsPut place.loops place.nest (Performs s) text.old.items text.new.items) }
{
    print_indent(text, place.nest + 1)?;
    print_name(text, b'v', variable)?;
    text.extend_from_slice(b" = ")?;
    print_array(text, array)?;
    text.extend_from_slice(b"[")?;
    print_expression(text, index)?;
    text.extend_from_slice(b"];\n")?;
    Ok(())
}

/// Puts a store behind the text.
fn print_store(
    text: &mut Vec<u8>,
    place: Place,
    array: Array,
    index: &Expr,
    value: &Expr,
) -> Result<(), AllocError>
    ensures { let i = formula_of index.now in
        let e = formula_of value.now in
        let s = Stores (array_of array) i e in
        OnOk result (IsPut place.loops place.nest (Performs s) text.old.items text.new.items) }
{
    print_indent(text, place.nest + 1)?;
    print_array(text, array)?;
    text.extend_from_slice(b"[")?;
    print_expression(text, index)?;
    text.extend_from_slice(b"] = ")?;
    print_expression(text, value)?;
    text.extend_from_slice(b";\n")?;
    Ok(())
}

/// Puts an assignment of four words behind the text.
fn print_assign_four(
    text: &mut Vec<u8>,
    place: Place,
    variable: u32,
    value: &Lanes,
) -> Result<(), AllocError>
    ensures { let s = AssignsFour variable (lanes_of value.now) in
        OnOk result (IsPut place.loops place.nest (Performs s) text.old.items text.new.items) }
{
    print_indent(text, place.nest + 1)?;
    print_name(text, b'w', variable)?;
    text.extend_from_slice(b" = ")?;
    print_lanes(text, value)?;
    text.extend_from_slice(b";\n")?;
    Ok(())
}

/// Puts a load of four words behind the text.
fn print_load_four(
    text: &mut Vec<u8>,
    place: Place,
    variable: u32,
    array: Array,
    offset: &Expr,
) -> Result<(), AllocError>
    ensures { let i = formula_of offset.now in
        let s = LoadsFour variable (array_of array) i in
        OnOk result (IsPut place.loops place.nest (Performs s) text.old.items text.new.items) }
{
    print_indent(text, place.nest + 1)?;
    print_name(text, b'w', variable)?;
    text.extend_from_slice(b" = vload4(")?;
    print_expression(text, offset)?;
    text.extend_from_slice(b", ")?;
    print_array(text, array)?;
    text.extend_from_slice(b");\n")?;
    Ok(())
}

/// Puts a store of four words behind the text.
fn print_store_four(
    text: &mut Vec<u8>,
    place: Place,
    array: Array,
    offset: &Expr,
    value: &Lanes,
) -> Result<(), AllocError>
    ensures { let i = formula_of offset.now in
        let e = lanes_of value.now in
        let s = StoresFour (array_of array) i e in
        OnOk result (IsPut place.loops place.nest (Performs s) text.old.items text.new.items) }
{
    print_indent(text, place.nest + 1)?;
    text.extend_from_slice(b"vstore4(")?;
    print_lanes(text, value)?;
    text.extend_from_slice(b", ")?;
    print_expression(text, offset)?;
    text.extend_from_slice(b", ")?;
    print_array(text, array)?;
    text.extend_from_slice(b");\n")?;
    Ok(())
}

/// Puts a barrier's flags behind the text.
fn print_flags(text: &mut Vec<u8>, on_local: bool, on_global: bool) -> Result<(), AllocError>
    ensures { OnOk result (text.new.items ≡ text.old.items ++ flags_text on_local on_global) }
{
    match (on_local, on_global) {
        (true, true) => text.extend_from_slice(b"CLK_LOCAL_MEM_FENCE | CLK_GLOBAL_MEM_FENCE"),
        (true, false) => text.extend_from_slice(b"CLK_LOCAL_MEM_FENCE"),
        (false, true) => text.extend_from_slice(b"CLK_GLOBAL_MEM_FENCE"),
        (false, false) => Ok(()),
    }
}

/// Puts a barrier behind the text.
fn print_barrier(
    text: &mut Vec<u8>,
    place: Place,
    on_local: bool,
    on_global: bool,
) -> Result<(), AllocError>
    ensures { let s = Syncs on_local on_global in
        OnOk result (IsPut place.loops place.nest (Performs s) text.old.items text.new.items) }
{
    print_indent(text, place.nest + 1)?;
    text.extend_from_slice(b"barrier(")?;
    print_flags(text, on_local, on_global)?;
    text.extend_from_slice(b");\n")?;
    Ok(())
}

#[cycle(printing)]
fn print_block(text: &mut Vec<u8>, place: Place, block: &[Stmt]) -> Result<(), AllocError>
    requires { StandWithin place.loops place.nest (code_then block.now End) }
    ensures { OnOk result
        (IsPut place.loops place.nest (code_then block.now) text.old.items text.new.items) }
{
    blocks();
    for statement in block {
        print_statement(text, place, statement)?;
    }
    Ok(())
}

#[cycle(printing)]
fn print_statement(text: &mut Vec<u8>, place: Place, statement: &Stmt) -> Result<(), AllocError>
    requires { (after : Code) × StandWithin place.loops place.nest (before statement.now after) }
    ensures { OnOk result
        (IsPut place.loops place.nest (before statement.now) text.old.items text.new.items) }
{
    match statement {
        Stmt::Assign(variable, value) => print_assign(text, place, *variable, value),
        Stmt::Load(variable, array, index) => print_load(text, place, *variable, *array, index),
        Stmt::Store(array, index, value) => print_store(text, place, *array, index, value),
        Stmt::AssignFour(variable, value) => print_assign_four(text, place, *variable, value),
        Stmt::LoadFour(variable, array, offset) => {
            print_load_four(text, place, *variable, *array, offset)
        }
        Stmt::StoreFour(array, offset, value) => {
            print_store_four(text, place, *array, offset, value)
        }
        Stmt::Barrier {
            on_local,
            on_global,
        } => print_barrier(text, place, *on_local, *on_global),
        Stmt::Loop(start, bound, stride, body) => {
            blocks();
            print_loop(text, place, *start, bound, *stride)?;
            let inside = place.in_loop();
            print_block(text, inside, body)?;
            print_end(text, inside.nest)?;
            Ok(())
        }
        Stmt::If(start, bound, body) => {
            blocks();
            print_if(text, place, *start, bound)?;
            let inside = place.in_if();
            print_block(text, inside, body)?;
            print_end(text, inside.nest)?;
            Ok(())
        }
    }
}

/// Puts the size of the groups behind the text, where there is one.
fn print_group_size(text: &mut Vec<u8>, local: Option<(u32, u32)>) -> Result<(), AllocError>
    ensures { OnOk result (text.new.items ≡ write_launching text.old.items local) }
{
    let Some((width, height)) = local else {
        return Ok(());
    };
    text.extend_from_slice(b"__attribute__((reqd_work_group_size(")?;
    print_number(text, width)?;
    text.extend_from_slice(b", ")?;
    print_number(text, height)?;
    text.extend_from_slice(b", 1))) ")?;
    Ok(())
}

/// The text of a kernel of this name, up to its parameters.
fn print_head(alloc: Global, name: &[u8], local: Option<(u32, u32)>) -> Result<Vec<u8>, AllocError>
    ensures { IfOk result (λ text. text.items ≡ write_head name.now local) }
{
    let mut text = Vec::from_slice(alloc, b"__kernel ")?;
    print_group_size(&mut text, local)?;
    text.extend_from_slice(b"void ")?;
    text.extend_from_slice(name)?;
    text.extend_from_slice(b"(")?;
    Ok(text)
}

fn print_kernel(alloc: Global, name: &[u8], kernel: &Kernel) -> Result<Vec<u8>, AllocError>
    ensures text { let k = kernel.now in
        IfOk result (λ text. text.items ≡ write_kernel name.now (kernel_of k) (k.outputs - 1)) }
    ensures counts { let k = kernel.now in
        IfOk result (λ _.
        (k.inputs < 2 ^ 32) × (k.outputs < 2 ^ 32) × (k.sizes < 2 ^ 32)
        × (k.variables < 2 ^ 32) × (k.vectors < 2 ^ 32)) }
{
    let mut text = print_head(alloc, name, kernel.local)?;
    print_inputs(&mut text, kernel.inputs)?;
    print_outputs(&mut text, kernel.outputs - 1)?;
    print_sizes(&mut text, kernel.sizes)?;
    text.extend_from_slice(b")\n{\n")?;
    print_arrays(&mut text, b"__local uint ", b'l', &kernel.locals)?;
    print_arrays(&mut text, b"uint ", b'p', &kernel.privates)?;
    print_variables(&mut text, kernel.variables)?;
    print_vectors(&mut text, kernel.vectors)?;
    let outside = Place { loops: 0, nest: 0 };
    print_block(&mut text, outside, &kernel.body)?;
    print_end(&mut text, 0)?;
    Ok(text)
}

/// The text of a kernel of this name.
fn print_named(alloc: Global, name: &[u8], kernel: &Kernel) -> Result<Vec<u8>, AllocError>
    requires { IsName name.now }
    // The kernel grammar relates the text to the kernel.
    ensures text { IfOk result (λ text. IsKernelText name.now text.items (kernel_of kernel.now)) }
    // It relates no other bytes to it.
    ensures only { IfOk result (λ text.
        (bytes : List ℕ) → IsKernelText name.now bytes (kernel_of kernel.now)
        → bytes ≡ text.items) }
{
    one_text();
    print_kernel(alloc, name, kernel)
}

/// The text of a kernel that stands alone.
pub fn print(alloc: Global, kernel: &Kernel) -> Result<Vec<u8>, AllocError>
    // The kernel grammar relates the text to the kernel.
    ensures text { IfOk result (λ text. IsKernelText lift text.items (kernel_of kernel.now)) }
    // It relates no other bytes to it.
    ensures only { IfOk result (λ text.
        (bytes : List ℕ) → IsKernelText lift bytes (kernel_of kernel.now) → bytes ≡ text.items) }
{
    print_named(alloc, b"lift", kernel)
}

/// The text of kernels in order: each one's text by the name `lift` and its number, from 0.
pub fn print_sequence(alloc: Global, kernels: &[Kernel]) -> Result<Vec<u8>, AllocError>
    // The kernel grammar relates the text to the kernels, one after another.
    ensures text { IfOk result (λ text. AreTexts 0 text.items (map kernel_of kernels.now)) }
    // It relates no other bytes to them.
    ensures only { IfOk result (λ text.
        (bytes : List ℕ) → AreTexts 0 bytes (map kernel_of kernels.now) → bytes ≡ text.items) }
{
    sequences_have_one_text();
    let mut text = Vec::new(alloc);
    for (number, kernel) in kernels.iter().enumerate() {
        let name = sequence_name(alloc, number as u64)?;
        let own = print_named(alloc, &name, kernel)?;
        text.extend_from_slice(&own)?;
    }
    Ok(text)
}
