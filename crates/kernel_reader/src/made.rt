//! What a reading has made of a kernel.

ghost use Rattle.std.specs.Prelude.{◌≡◌, IfOk};
ghost use Rattle.readings.specs.Given.{Noticed};
ghost use Rattle.kernel_tree.specs.KernelText.{Piece, Part, Note, Notes, kernels, marked};
ghost use Rattle.kernel_spelling.specs.Rows.{table};
ghost use Rattle.kernel_spelling.specs.Decided.{decided};
ghost use Rattle.kernel_reader.specs.Views.{bytes_of, part_of, note_of};
ghost use Rattle.kernel_reader.specs.Noted.{notes_of};

use crate::form::{Debts, Form, Mark};
use crate::lines::is_indent;
use kernel_tree::laws::blocks;
use kernel_tree::tree::{Array, Comparison, Expr, Lanes, Start, Stmt, Stride};
use readings::Notes;
use scalar_ops::op::Op;
use std::alloc::{AllocError, Global};
use std::collections::VecDeque;
use std::marker::PhantomData;

/// The names declared so far, with the lengths of the arrays, the size of the groups, and the
/// expressions and blocks that are made and not yet used, the last one first.
#[derive(Drop)]
pub struct Made<'a> {
    pub inputs: u32,
    pub outputs: u32,
    pub sizes: u32,
    pub locals: Vec<u32>,
    pub privates: Vec<u32>,
    pub variables: u32,
    pub vectors: u32,
    pub local: Option<(u32, u32)>,
    pub values: VecDeque<Expr>,
    pub lanes: VecDeque<Lanes>,
    pub blocks: VecDeque<VecDeque<Stmt>>,
    pub text: PhantomData<&'a [u8]>,
}

/// The statements of a block in a vector.
pub fn statements_of(alloc: Global, mut block: VecDeque<Stmt>) -> Result<Vec<Stmt>, AllocError>
    ensures { IfOk result (λ statements. statements.items ≡ block.items) }
{
    let mut statements = Vec::new(alloc);
    while let Some(statement) = block.pop_front() {
        statements.push(statement)?;
    }
    Ok(statements)
}

impl<'a> Made<'a> {
    fn both(&mut self, alloc: Global, op: Op) -> Result<bool, AllocError>
        ensures { let note = note_of (Mark.Both op) in
            Noticed result (marked note (notes_of self.old)) (notes_of self.new) }
    {
        let Some(right) = self.values.pop_front() else {
            return Ok(false);
        };
        let Some(left) = self.values.pop_front() else {
            return Ok(false);
        };
        self.values
            .push_front(Expr::binary(alloc, op, left, right)?)?;
        Ok(true)
    }

    fn either(&mut self, alloc: Global, comparison: Comparison) -> Result<bool, AllocError>
        ensures { let note = note_of (Mark.Either comparison) in
            Noticed result (marked note (notes_of self.old)) (notes_of self.new) }
    {
        let Some(no) = self.values.pop_front() else {
            return Ok(false);
        };
        let Some(yes) = self.values.pop_front() else {
            return Ok(false);
        };
        let Some(right) = self.values.pop_front() else {
            return Ok(false);
        };
        let Some(left) = self.values.pop_front() else {
            return Ok(false);
        };
        self.values
            .push_front(Expr::choose(alloc, comparison, left, right, yes, no)?)?;
        Ok(true)
    }

    fn assign(&mut self, variable: u32) -> Result<bool, AllocError>
        ensures { let note = note_of (Mark.Assign variable) in
            Noticed result (marked note (notes_of self.old)) (notes_of self.new) }
    {
        let Some(value) = self.values.pop_front() else {
            return Ok(false);
        };
        let Some(mut block) = self.blocks.pop_front() else {
            return Ok(false);
        };
        block.push_front(Stmt::Assign(variable, value))?;
        self.blocks.push_front(block)?;
        Ok(true)
    }

    fn load(&mut self, variable: u32, array: Array) -> Result<bool, AllocError>
        ensures { let note = note_of (Mark.Load variable array) in
            Noticed result (marked note (notes_of self.old)) (notes_of self.new) }
    {
        let Some(index) = self.values.pop_front() else {
            return Ok(false);
        };
        let Some(mut block) = self.blocks.pop_front() else {
            return Ok(false);
        };
        block.push_front(Stmt::Load(variable, array, index))?;
        self.blocks.push_front(block)?;
        Ok(true)
    }

    fn store(&mut self, array: Array) -> Result<bool, AllocError>
        ensures { let note = note_of (Mark.Store array) in
            Noticed result (marked note (notes_of self.old)) (notes_of self.new) }
    {
        let Some(value) = self.values.pop_front() else {
            return Ok(false);
        };
        let Some(index) = self.values.pop_front() else {
            return Ok(false);
        };
        let Some(mut block) = self.blocks.pop_front() else {
            return Ok(false);
        };
        block.push_front(Stmt::Store(array, index, value))?;
        self.blocks.push_front(block)?;
        Ok(true)
    }

    fn spread(&mut self) -> Result<bool, AllocError>
        ensures { Noticed result (marked (note_of Mark.SpreadOut) (notes_of self.old))
            (notes_of self.new) }
    {
        let Some(word) = self.values.pop_front() else {
            return Ok(false);
        };
        self.lanes.push_front(Lanes::Spread(word))?;
        Ok(true)
    }

    fn each(&mut self, alloc: Global, op: Op) -> Result<bool, AllocError>
        ensures { let note = note_of (Mark.EachOf op) in
            Noticed result (marked note (notes_of self.old)) (notes_of self.new) }
    {
        let Some(right) = self.lanes.pop_front() else {
            return Ok(false);
        };
        let Some(left) = self.lanes.pop_front() else {
            return Ok(false);
        };
        self.lanes.push_front(Lanes::each(alloc, op, left, right)?)?;
        Ok(true)
    }

    fn assign_four(&mut self, variable: u32) -> Result<bool, AllocError>
        ensures { let note = note_of (Mark.AssignFour variable) in
            Noticed result (marked note (notes_of self.old)) (notes_of self.new) }
    {
        let Some(words) = self.lanes.pop_front() else {
            return Ok(false);
        };
        let Some(mut block) = self.blocks.pop_front() else {
            return Ok(false);
        };
        block.push_front(Stmt::AssignFour(variable, words))?;
        self.blocks.push_front(block)?;
        Ok(true)
    }

    fn load_four(&mut self, variable: u32, array: Array) -> Result<bool, AllocError>
        ensures { let note = note_of (Mark.LoadFour variable array) in
            Noticed result (marked note (notes_of self.old)) (notes_of self.new) }
    {
        let Some(offset) = self.values.pop_front() else {
            return Ok(false);
        };
        let Some(mut block) = self.blocks.pop_front() else {
            return Ok(false);
        };
        block.push_front(Stmt::LoadFour(variable, array, offset))?;
        self.blocks.push_front(block)?;
        Ok(true)
    }

    fn store_four(&mut self, array: Array) -> Result<bool, AllocError>
        ensures { let note = note_of (Mark.StoreFour array) in
            Noticed result (marked note (notes_of self.old)) (notes_of self.new) }
    {
        let Some(offset) = self.values.pop_front() else {
            return Ok(false);
        };
        let Some(words) = self.lanes.pop_front() else {
            return Ok(false);
        };
        let Some(mut block) = self.blocks.pop_front() else {
            return Ok(false);
        };
        block.push_front(Stmt::StoreFour(array, offset, words))?;
        self.blocks.push_front(block)?;
        Ok(true)
    }

    fn synchronize(&mut self, on_local: bool, on_global: bool) -> Result<bool, AllocError>
        ensures { let note = note_of (Mark.Sync on_local on_global) in
            Noticed result (marked note (notes_of self.old)) (notes_of self.new) }
    {
        let Some(mut block) = self.blocks.pop_front() else {
            return Ok(false);
        };
        block.push_front(Stmt::Barrier {
            on_local,
            on_global,
        })?;
        self.blocks.push_front(block)?;
        Ok(true)
    }

    fn close_loop(
        &mut self,
        alloc: Global,
        start: Start,
        stride: Stride,
    ) -> Result<bool, AllocError>
        ensures { let note = note_of (Mark.Loop start stride) in
            Noticed result (marked note (notes_of self.old)) (notes_of self.new) }
    {
        blocks();
        let Some(bound) = self.values.pop_front() else {
            return Ok(false);
        };
        let Some(mut after) = self.blocks.pop_front() else {
            return Ok(false);
        };
        let Some(body) = self.blocks.pop_front() else {
            return Ok(false);
        };
        let body = statements_of(alloc, body)?;
        after.push_front(Stmt::Loop(start, bound, stride, body))?;
        self.blocks.push_front(after)?;
        Ok(true)
    }
}

impl<'a> Made<'a> {
    fn close_if(&mut self, alloc: Global, start: Start) -> Result<bool, AllocError>
        ensures { let note = note_of (Mark.If start) in
            Noticed result (marked note (notes_of self.old)) (notes_of self.new) }
    {
        blocks();
        let Some(bound) = self.values.pop_front() else {
            return Ok(false);
        };
        let Some(mut after) = self.blocks.pop_front() else {
            return Ok(false);
        };
        let Some(body) = self.blocks.pop_front() else {
            return Ok(false);
        };
        let body = statements_of(alloc, body)?;
        after.push_front(Stmt::If(start, bound, body))?;
        self.blocks.push_front(after)?;
        Ok(true)
    }
}

impl<'a> Notes for Made<'a> {
    type Token = &'a [u8];

    type Form = Form;

    type Mark = Mark;

    ghost PlainToken = { Piece };

    ghost PlainForm = { Part };

    ghost PlainMark = { Note };

    ghost PlainNotes = { Notes };

    ghost token_of = { bytes_of };

    ghost form_of = { part_of };

    ghost mark_of = { note_of };

    ghost notes_of = { notes_of };

    ghost grammar = { kernels };

    ghost table = { table };

    fn is_same(a: &'a [u8], b: &'a [u8]) -> bool {
        a == b
    }

    fn give(&self, form: Form, piece: &'a [u8], owed: &mut Debts<'a>) -> Result<bool, AllocError> {
        match form {
            Form::Statement(place) => self.give_statement(place, piece, owed),
            Form::Next(place) => self.give_next(place, piece, owed),
            Form::Source(place, variable) => self.give_source(place, variable, piece, owed),
            Form::SourceOfFour(place, variable) => {
                self.give_source_of_four(place, variable, piece, owed)
            }
            Form::LoadedFour(place, variable) => {
                self.give_loaded_four(place, variable, piece, owed)
            }
            Form::StoredFour(place) => self.give_stored_four(place, piece, owed),
            Form::Fence(place) => self.give_fence(place, piece, owed),
            Form::AfterLocal(place) => self.give_after_local(place, piece, owed),
            Form::Beginning(guard, block) => self.give_beginning(guard, block, piece, owed),
            Form::BeginningId(guard, block) => self.give_beginning_id(guard, block, piece, owed),
            Form::BeginningAlong(guard, block, form) => {
                self.give_beginning_along(guard, block, form, piece, owed)
            }
            Form::Step(block, start) => self.give_step(block, start, piece, owed),
            Form::StepId(block, start) => self.give_step_id(block, start, piece, owed),
            Form::StepAlong(block, start, form) => {
                self.give_step_along(block, start, form, piece, owed)
            }
            Form::Turn(loops) => self.give_turn(loops, piece, owed),
            Form::Indent(level) => Ok(is_indent(piece, level as u64)),
            Form::Value(bound, loops, depth) => self.give_value(bound, loops, depth, piece, owed),
            Form::Opened(bound, loops, depth) => self.give_opened(bound, loops, depth, piece, owed),
            Form::InLanes(loops, depth) => self.give_lanes(loops, depth, piece, owed),
            Form::LanesOpened(opening) => self.give_lanes_opened(opening, piece, owed),
            Form::LanesRest(loops, depth) => self.give_lanes_rest(loops, depth, piece, owed),
            Form::LanesAfterLess(loops, depth) => {
                self.give_lanes_after_less(loops, depth, piece, owed)
            }
            Form::IdName => self.give_id(piece, owed),
            Form::IdAlong(form) => self.give_id_along(form, piece, owed),
            Form::Rest(bound, loops, depth) => self.give_rest(bound, loops, depth, piece, owed),
            Form::AfterLess(bound, loops, depth) => {
                self.give_after_less(bound, loops, depth, piece, owed)
            }
            _ => self.give_declaration(form, piece, owed),
        }
    }

    fn mark(&mut self, alloc: Global, mark: Mark) -> Result<bool, AllocError> {
        match mark {
            Mark::DeclareInput(count) => {
                self.inputs = count;
                Ok(true)
            }
            Mark::DeclareOutput(count) => {
                self.outputs = count;
                Ok(true)
            }
            Mark::DeclareSize(count) => {
                self.sizes = count;
                Ok(true)
            }
            Mark::DeclareVariable(count) => {
                self.variables = count;
                Ok(true)
            }
            Mark::DeclareVector(count) => {
                self.vectors = count;
                Ok(true)
            }
            Mark::FixLocal(width, height) => {
                self.local = Some((width, height));
                Ok(true)
            }
            Mark::DeclareLocal(elements) => {
                self.locals.push(elements)?;
                Ok(true)
            }
            Mark::DeclarePrivate(elements) => {
                self.privates.push(elements)?;
                Ok(true)
            }
            Mark::Number(number) => {
                self.values.push_front(Expr::Number(number))?;
                Ok(true)
            }
            Mark::Variable(k) => {
                self.values.push_front(Expr::Variable(k))?;
                Ok(true)
            }
            Mark::LoopVariable(k) => {
                self.values.push_front(Expr::LoopVariable(k))?;
                Ok(true)
            }
            Mark::Size(k) => {
                self.values.push_front(Expr::Size(k))?;
                Ok(true)
            }
            Mark::Id(along, form) => {
                self.values.push_front(Expr::Id(along, form))?;
                Ok(true)
            }
            Mark::Vector(k) => {
                self.lanes.push_front(Lanes::Vector(k))?;
                Ok(true)
            }
            Mark::SpreadOut => self.spread(),
            Mark::EachOf(op) => self.each(alloc, op),
            Mark::Both(op) => self.both(alloc, op),
            Mark::Either(comparison) => self.either(alloc, comparison),
            Mark::Stop => {
                self.blocks.push_front(VecDeque::new(alloc))?;
                Ok(true)
            }
            Mark::Assign(variable) => self.assign(variable),
            Mark::Load(variable, array) => self.load(variable, array),
            Mark::Store(array) => self.store(array),
            Mark::AssignFour(variable) => self.assign_four(variable),
            Mark::LoadFour(variable, array) => self.load_four(variable, array),
            Mark::StoreFour(array) => self.store_four(array),
            Mark::If(start) => self.close_if(alloc, start),
            Mark::Loop(start, stride) => self.close_loop(alloc, start, stride),
            Mark::Sync(on_local, on_global) => self.synchronize(on_local, on_global),
        }
    }

    ghost decides = { decided };
}
