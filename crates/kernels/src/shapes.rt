//! Kernels of rows: the items that are a row's own. Each is held by its shape, which many rows have alike, and its origins.
ghost use Rattle.std.specs.Prelude.{◌≡◌, ℕ, ◌<◌, ◌↔◌, ◌++◌, ◌∷◌, [], length, take, Some, slice_get, slice_index_or, IsTrue, IfOk, OnOk, OnErr};
ghost use Rattle.kernels.specs.Slots.{Rises, placed_all, dotted_of, AreSlotted};
ghost use Rattle.kernels.specs.Shapes.{kernel_at, AreOfShapes, IsShapeAt, IsOfShape};
ghost use Rattle.kernels.specs.declared.shapes.Shape.{Shape as TheShape};

use crate::guess::{fits, guess_at, mend_guess, place_of};
use crate::slots::{list_origins, list_slotted};
use indexmap::IndexSet;
use jagged::Jagged;
use slif_base::number;
use std::alloc::{AllocError, Global};
use std::marker::Model;

/// What rows have alike: the number of the list that they share, and their own items. Of an item the number of its dotted rule is told,
/// and a slot, the place of its origin among the origins of the row.
#[derive(PartialEq, Eq, Hash, Drop)]
pub struct Shape {
    pub begun: u32,
    pub slotted: Vec<u64>,
}

/// A kernel: the number of the list that its row shares, slotted items, and the origins of their slots.
#[derive(Clone, Copy)]
pub struct KernelRef<'r> {
    pub begun: u32,
    pub slotted: &'r [u64],
    pub origins: &'r [u32],
}

/// Kernels. A shape is held once, and stays.
#[derive(Drop)]
pub struct Kernels {
    shapes: IndexSet<Shape>,
    // the number of the shape, row by row
    kinds: Vec<u32>,
    // the origins, row by row
    origins: Jagged<u32>,
    // what is put last
    next: Shape,
    slots: Vec<u32>,
    // numbers of shapes that were found before
    guesses: Vec<u32>,
}

impl Model for Kernels {
    ghost use Rattle.std.specs.Prelude.{List};
    ghost use Rattle.kernels.specs.Shapes.{Kernel, kernels_of, AreShaped};

    ghost Value = { List Kernel };

    ghost view = { λ k. kernels_of k.shapes.keys k.kinds.items k.origins };

    ghost invariant = { λ k. AreShaped k.shapes.keys k.kinds.items k.origins };
}

impl Kernels {
    /// No kernels.
    pub fn new(alloc: Global) -> Kernels
        ensures { result ≡ [] }
    {
        Kernels {
            shapes: IndexSet::new(alloc),
            kinds: Vec::new(alloc),
            origins: Jagged::new(alloc),
            next: Shape {
                begun: 0,
                slotted: Vec::new(alloc),
            },
            slots: Vec::new(alloc),
            guesses: Vec::new(alloc),
        }
    }

    /// How many kernels there are.
    pub fn len(&self) -> usize
        ensures { result ≡ length self.now }
    {
        self.kinds.len()
    }

    /// A kernel, by its row's number.
    pub fn kernel(&self, j: usize) -> KernelRef<'_>
        requires { j < length self.now }
        ensures begun { result.begun ≡ (kernel_at self.now j).begun }
        ensures slotted { AreSlotted result.origins.now result.slotted.now }
        ensures packed { placed_all result.origins.now result.slotted.now ≡
            (kernel_at self.now j).packed }
    {
        let shape = shape_at(&self.shapes, &self.kinds, j);
        KernelRef {
            begun: shape.begun,
            slotted: &shape.slotted,
            origins: self.origins.row(j),
        }
    }

    /// States what is always so of kernels.
    pub fn known(&self)
        ensures { AreOfShapes self.now }
    {
        let _count = self.kinds.len();
    }

    /// The number of a kernel's shape.
    pub fn kind(&self, j: usize) -> u32
        requires { j < length self.now }
        ensures { result ≡ (kernel_at self.now j).kind }
    {
        kind_at(&self.kinds, j)
    }

    /// Whether two kernels have one shape: then they share one list, and have the same dotted rules, in the same order.
    pub fn is_alike(&self, i: usize, j: usize) -> bool
        requires first { i < length self.now }
        requires second { j < length self.now }
        ensures exact { IsTrue result ↔ (kernel_at self.now i).kind ≡ (kernel_at self.now j).kind }
        ensures begun { IsTrue result → (kernel_at self.now i).begun ≡ (kernel_at self.now j).begun }
        ensures dotted { IsTrue result →
            dotted_of (kernel_at self.now i).packed ≡ dotted_of (kernel_at self.now j).packed }
    {
        kind_at(&self.kinds, i) == kind_at(&self.kinds, j)
    }

    /// Lets all kernels go but the first.
    pub fn keep_first(&mut self)
        ensures { self.new ≡ take 1 self.old }
    {
        self.kinds.truncate(1);
        self.origins.keep_first();
    }

    /// One more kernel, of packed items in order, whose row shares a list.
    pub fn push(&mut self, packed: &[u64], begun: u32) -> Result<(), AllocError>
        requires { Rises packed.now }
        ensures ok { OnOk result ((kind : ℕ) × (self.new ≡
            self.old ++ (record { begun = begun; packed = packed.now; kind = kind }) ∷ [])) }
        ensures err { OnErr result (self.new ≡ self.old) }
    {
        let place = place_of(packed, begun, self.guesses.len());
        let guess = guess_at(&self.guesses, place);
        let next = &mut self.next;
        let kind = kind_of(
            &mut self.shapes,
            guess,
            packed,
            begun,
            next,
            &mut self.slots,
        )?;
        mend_guess(&mut self.guesses, place, guess, kind);
        self.kinds.reserve(1)?;
        self.origins.push(&self.slots)?;
        self.kinds.push_reserved(kind);
        Ok(())
    }
}

// The number of a row's shape.
fn kind_at(kinds: &[u32], j: usize) -> u32
    requires { j < length kinds.now }
    ensures { result ≡ slice_index_or kinds.now j 0 }
{
    kinds[j]
}

// The shape of a row.
fn shape_at<'r>(shapes: &'r IndexSet<Shape>, kinds: &[u32], j: usize) -> &'r Shape
    requires { (kind : ℕ) × (slice_get kinds.now j ≡ Some kind) ×
        (kind < length shapes.now.keys) }
    ensures { (kind : ℕ) → slice_get kinds.now j ≡ Some kind →
        slice_get shapes.now.keys kind ≡ Some result.now }
{
    match shapes.get_index(kinds[j] as usize) {
        Some(shape) => shape,
        None => unreachable!(),
    }
}

fn copy_of(shape: &Shape) -> Result<Shape, AllocError>
    ensures begun { IfOk result (λ copy. copy.begun ≡ shape.now.begun) }
    ensures slotted { IfOk result (λ copy. copy.slotted.items ≡ shape.now.slotted.items) }
{
    let slotted = shape.slotted.clone()?;
    Ok(Shape {
        begun: shape.begun,
        slotted,
    })
}

// The number of a shape, which becomes a new one if there is none like it.
fn number_of(shapes: &mut IndexSet<Shape>, shape: &Shape) -> Result<u32, AllocError>
    ensures number { IfOk result (λ n. IsShapeAt shapes.new.keys shape.now n) }
    ensures kept { (k : ℕ) (s : TheShape) → slice_get shapes.old.keys k ≡ Some s →
        slice_get shapes.new.keys k ≡ Some s }
{
    if let Some(at) = shapes.get_index_of(shape) {
        return number(at);
    }
    let copy = copy_of(shape)?;
    let (at, _) = shapes.insert_full(copy)?;
    number(at)
}

// Whether packed items are of the shape of a number, if there is one; then their origins are listed.
fn is_of_shape(
    shapes: &IndexSet<Shape>,
    kind: u32,
    packed: &[u64],
    begun: u32,
    origins: &mut Vec<u32>,
) -> Result<bool, AllocError>
    requires { Rises packed.now }
    ensures { IfOk result (λ is. IsTrue is →
        IsOfShape shapes.now.keys kind begun packed.now origins.new.items) }
{
    match shapes.get_index(kind as usize) {
        Some(shape) if shape.begun == begun => fits(&shape.slotted, packed, origins),
        _ => Ok(false),
    }
}

// The number of the shape of packed items, which is looked up if it is not as guessed. Their origins are listed.
fn kind_of(
    shapes: &mut IndexSet<Shape>,
    guess: u32,
    packed: &[u64],
    begun: u32,
    next: &mut Shape,
    origins: &mut Vec<u32>,
) -> Result<u32, AllocError>
    requires { Rises packed.now }
    ensures shape { IfOk result (λ kind.
        IsOfShape shapes.new.keys kind begun packed.now origins.new.items) }
    ensures kept { (k : ℕ) (s : TheShape) → slice_get shapes.old.keys k ≡ Some s →
        slice_get shapes.new.keys k ≡ Some s }
{
    if is_of_shape(shapes, guess, packed, begun, origins)? {
        return Ok(guess);
    }
    list_origins(packed, origins)?;
    list_slotted(packed, origins, &mut next.slotted)?;
    next.begun = begun;
    number_of(shapes, next)
}
