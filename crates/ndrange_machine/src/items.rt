//! The work-items of the machine.

ghost use Rattle.std.specs.Prelude.{◌≡◌, ◌↔◌, ◌+◌, ◌*◌, ◌<◌, ◌≤◌, ◌==◌, ℕ, Some, length, replicate, map, option_map, nat_lt, slice_get, slice_set, if◌then◌else◌, IfOk, IsTrue};
ghost use Rattle.ndrange_machine.specs.Groups.{SamePlace};
ghost use Rattle.ndrange_machine.specs.Changes.{changed, start_view};
ghost use Rattle.ndrange_machine.specs.Flat.{part, with_cell};
ghost use Rattle.ndrange_machine.specs.ItemView.{ItemView, OfItem};
ghost use Rattle.kernel_tree.specs.Formula as formula;
ghost use Rattle.kernel_tree.specs.Launch.{ids_of};
ghost use Rattle.kernel_tree.specs.Tree.{formula_of};
ghost use Rattle.ndrange_machine.specs.Known.{four_of, known, variables};
ghost use Rattle.ndrange_machine.specs.Wants.{wanted, want_tail};

use crate::change::Change;
use crate::four::Four;
use crate::ids::Ids;
use crate::line::Line;
use crate::turn::{Turn, same_numbers};
use crate::value::{leaf_of, operate, value_of, variable_at, word_at};
use crate::want::{Want, want_at, want_at_tail};
use kernel_tree::launches::Launch;
use kernel_tree::tree::Expr;
use std::alloc::{AllocError, Global};
use std::marker::Model;

/// Where a work-item stands: the number of its line, and how many loops are around it.
#[derive(Clone, Copy)]
pub struct Place {
    pub line: usize,
    pub inside: usize,
}

/// The work-items, each with the number of its line, the turns of the loops around it, outermost
/// first, and its private variables of a word and of four words. Each has as many of them as the
/// others: so what all hold lies in four lists, the parts of one item behind those of the item
/// before it, and however many items there are, four allocations hold them.
#[derive(Drop)]
pub struct Items {
    depth: usize,
    variables: usize,
    fours: usize,
    places: Vec<Place>,
    turns: Vec<Turn>,
    words: Vec<u32>,
    vectors: Vec<Four>,
}

impl Model for Items {
    ghost use Rattle.std.specs.Prelude.{List};
    ghost use Rattle.ndrange_machine.specs.ItemView.{ItemView};

    ghost Value = { List ItemView };

    ghost use Rattle.ndrange_machine.specs.Flat.{items_of, AreLaid};

    ghost view = { λ x. items_of x };

    ghost invariant = { λ x. AreLaid x };
}

impl Items {
    /// So many work-items at the first line, each with room for the turns of so many loops and so
    /// many private variables of a word and of four words, which hold the word everywhere.
    pub fn start(
        alloc: Global,
        count: u32,
        depth: usize,
        variables: u32,
        vectors: u32,
        word: u32,
    ) -> Result<Items, AllocError>
        ensures { IfOk result
            (λ items. items ≡ replicate count (start_view depth variables vectors word)) }
    {
        let count = count as usize;
        let variables = variables as usize;
        let fours = vectors as usize;
        let Some(turns) = count.checked_mul(depth) else {
            return Err(AllocError);
        };
        Ok(Items {
            depth,
            variables,
            fours,
            places: vec![in alloc; Place { line: 0, inside: 0 }; count]?,
            turns: vec![in alloc; Turn::first(0); turns]?,
            words: vec![in alloc; word; count * variables]?,
            vectors: vec![in alloc; Four::spread(word); count * fours]?,
        })
    }

    /// How many there are.
    #[inline(always)]
    pub fn count(&self) -> usize
        ensures { result ≡ length self.now }
    {
        self.places.len()
    }

    /// The number of an item's line, if there is such an item.
    #[inline(always)]
    pub fn line(&self, item: u32) -> Option<usize>
        ensures { result ≡ option_map (λ it. it.line) (slice_get self.now item) }
    {
        match self.places.get(item as usize) {
            Some(place) => Some(place.line),
            None => None,
        }
    }

    /// The number of the line of an item that there is.
    #[inline(always)]
    pub fn line_of(&self, item: u32) -> usize
        requires { item < length self.now }
        ensures { OfItem self.now item (λ it. result ≡ it.line) }
    {
        self.places[item as usize].line
    }

    /// Whether two items stand at one line, in turns of the same numbers.
    pub fn stand_together(&self, one: u32, other: u32) -> bool
        requires one { one < length self.now }
        requires other { other < length self.now }
        ensures { OfItem self.now one (λ a. OfItem self.now other
            (λ b. IsTrue result ↔ SamePlace a b)) }
    {
        self.line_of(one) == self.line_of(other) && same_numbers(self.turns(one), self.turns(other))
    }

    /// What an item wants, where it knows this.
    #[inline(always)]
    pub fn want(&self, item: u32, lines: &[Line], ids: Ids, sizes: &[u32]) -> Want
        requires { item < length self.now }
        ensures { OfItem self.now item
            (λ it. result ≡ wanted lines.now (known ids sizes.now) it) }
    {
        want_at(
            lines,
            ids,
            sizes,
            self.line_of(item),
            self.turns(item),
            self.words(item),
            self.vectors(item),
        )
    }

    /// What an item wants at the end of the body of the loop whose head is this line.
    #[inline(always)]
    pub fn want_back(&self, item: u32, lines: &[Line], launch: &Launch, head: usize) -> Want
        requires { item < length self.now }
        ensures { OfItem self.now item
            (λ it. result ≡ want_tail lines.now (ids_of launch.now item) head it.turns) }
    {
        want_at_tail(
            lines,
            Ids::of_item(launch, item),
            &launch.sizes,
            head,
            self.turns(item),
        )
    }

    /// An expression's value for an item; none where that meets a divisor of 0. Literals, variables
    /// and what one operator makes of them need no call.
    #[inline(always)]
    pub fn value(&self, item: u32, launch: &Launch, e: &Expr) -> Option<u32>
        requires { item < length self.now }
        ensures { OfItem self.now item (λ it. result
            ≡ formula.value (ids_of launch.now item) (variables it.turns) it.vars
            (formula_of e.now)) }
    {
        match e {
            Expr::Number(n) => Some(*n),
            Expr::Variable(v) => Some(word_at(self.words(item), *v)),
            Expr::LoopVariable(i) => Some(variable_at(self.turns(item), *i)),
            Expr::Binary(op, a, b) => match self.leaf(item, launch, a) {
                Some(x) => match self.leaf(item, launch, b) {
                    Some(y) => operate(*op, x, y),
                    None => self.any_value(item, launch, e),
                },
                None => self.any_value(item, launch, e),
            },
            _ => self.any_value(item, launch, e),
        }
    }

    // The value of a literal, a variable or a size; none of another expression.
    #[inline(always)]
    fn leaf(&self, item: u32, launch: &Launch, e: &Expr) -> Option<u32>
        requires { item < length self.now }
        ensures { OfItem self.now item (λ it. (ids : formula.Ids) (x : ℕ)
            → ids.sizes ≡ launch.now.sizes → result ≡ Some x
            → formula.value ids (variables it.turns) it.vars (formula_of e.now) ≡ Some x) }
    {
        leaf_of(&launch.sizes, self.turns(item), self.words(item), e)
    }

    // An expression's value, whatever it is.
    fn any_value(&self, item: u32, launch: &Launch, e: &Expr) -> Option<u32>
        requires { item < length self.now }
        ensures { OfItem self.now item (λ it. result
            ≡ formula.value (ids_of launch.now item) (variables it.turns) it.vars
            (formula_of e.now)) }
    {
        value_of(
            &Ids::of_item(launch, item),
            &launch.sizes,
            self.turns(item),
            self.words(item),
            self.vectors(item),
            e,
        )
    }

    /// Makes the change in an item, which goes to the line. It takes no memory: a loop begins only
    /// where there is room for its turn.
    #[inline(always)]
    pub fn change(&mut self, item: u32, change: Change, line: usize)
        requires { item < length self.old }
        ensures count { length self.new ≡ length self.old }
        ensures items { (i : ℕ) → slice_get self.new i ≡ (if i == item
            then option_map (λ it. changed it change line) (slice_get self.old i)
            else slice_get self.old i) }
    {
        let at = item as usize;
        match change {
            Change::Sets(variable, word) => {
                put(
                    &mut self.words,
                    self.variables,
                    item,
                    variable as usize,
                    word,
                );
            }
            Change::SetsFour(variable, four) => {
                put(&mut self.vectors, self.fours, item, variable as usize, four);
            }
            Change::Begins(turn) => {
                let inside = self.places[at].inside;
                if inside < self.depth {
                    put(&mut self.turns, self.depth, item, inside, turn);
                    self.places[at].inside = inside + 1;
                }
            }
            Change::Repeats(turn) => {
                let inside = self.places[at].inside;
                if 0 < inside {
                    put(&mut self.turns, self.depth, item, inside - 1, turn);
                }
            }
            Change::Leaves => {
                let inside = self.places[at].inside;
                self.places[at].inside = inside.saturating_sub(1);
            }
            Change::Keeps => {}
        }
        self.places[at].line = line;
    }

    // The turns of the loops around an item.
    #[inline(always)]
    fn turns(&self, item: u32) -> &[Turn]
        requires { item < length self.now }
        ensures { OfItem self.now item (λ it. result.now ≡ it.turns) }
    {
        let inside = self.places[item as usize].inside;
        &part_of(&self.turns, self.depth, item)[..inside]
    }

    // An item's private variables of a word.
    #[inline(always)]
    fn words(&self, item: u32) -> &[u32]
        requires { item < length self.now }
        ensures { OfItem self.now item (λ it. result.now ≡ it.vars.words) }
    {
        part_of(&self.words, self.variables, item)
    }

    // An item's private variables of four words.
    #[inline(always)]
    fn vectors(&self, item: u32) -> &[Four]
        requires { item < length self.now }
        ensures { OfItem self.now item (λ it. map four_of result.now ≡ it.vars.vectors) }
    {
        part_of(&self.vectors, self.fours, item)
    }
}

// The part of this number, of so many cells.
#[inline(always)]
fn part_of<T>(cells: &[T], width: usize, number: u32) -> &[T]
    requires { number * width + width ≤ length cells.now }
    ensures { result.now ≡ part cells.now width number }
{
    let from = number as usize * width;
    &cells[from..from + width]
}

// Puts a cell at a place of the part of this number, of so many cells, if it has such a place.
#[inline(always)]
fn put<T: Copy + Drop>(cells: &mut [T], width: usize, number: u32, at: usize, cell: T)
    requires { number * width + width ≤ length cells.old }
    ensures { cells.new ≡ with_cell cells.old width number at cell }
{
    if at < width {
        cells[number as usize * width + at] = cell;
    }
}
