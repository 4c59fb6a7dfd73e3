//! States that are made when they are first met.
ghost use Rattle.std.specs.Prelude.{◌≡◌, ℕ, ◌<◌, List, length, IfOk, Contains};
ghost use Rattle.recognizer_model.specs.declared.thread.Thread.{Thread as AThread};
ghost use Rattle.threads.specs.Lists.{list_at, IsGrown};
ghost use Rattle.threads.specs.Steps.{IsBegin};
ghost use Rattle.lexer.specs.Lexical.{LexicalForm};
ghost use Rattle.lexer.specs.Machines.{form_of, IsMachine, Goes, IsStepBy, IsStepOver};
ghost use Rattle.lexer.specs.Unbound.{IsMachineOf};

use crate::begins::Begins;
use crate::classes::{Classes, UnboundClasses};
use crate::kinds::{Kind, add_row};
use crate::next::{note, state_after};
use crate::table::Lexical;
use grammar_core::Flat;
use std::alloc::{AllocError, Global};
use std::marker::Model;
use threads::{Lists, first_row, next_row};

// How many parts there are at most between two matches, where the grammar is not large.
const PARTS: usize = 16384;

/// The rows that were met, as states, and what is known of steps from one to another.
#[derive(Drop)]
pub struct Machine<'g> {
    pub flat: &'g Flat,
    pub classes: Classes<'g>,
    pub parts: Lists,
    /// the threads of each state
    pub rows: Lists,
    pub kinds: Vec<Kind>,
    pub next: Vec<u32>,
    pub begins: Begins,
    /// how many states are noted at most
    pub limit: usize,
    /// how many parts there are at most between two matches
    pub part_limit: usize,
}

/// The same without the lexical grammar.
#[derive(Drop)]
pub struct UnboundMachine {
    pub classes: UnboundClasses,
    pub parts: Lists,
    pub rows: Lists,
    pub kinds: Vec<Kind>,
    pub next: Vec<u32>,
    pub begins: Begins,
    pub limit: usize,
    pub part_limit: usize,
}

/// A machine without the lexical grammar.
pub fn unbind(machine: Machine<'_>) -> UnboundMachine
    requires { IsMachine machine }
    ensures { IsMachineOf (form_of machine.entry) result }
{
    let Machine {
        flat: _,
        classes,
        parts,
        rows,
        kinds,
        next,
        begins,
        limit,
        part_limit,
    } = machine;
    UnboundMachine {
        classes: classes.unbind(),
        parts,
        rows,
        kinds,
        next,
        begins,
        limit,
        part_limit,
    }
}

/// The same with the lexical grammar.
pub fn bind<'g>(machine: UnboundMachine, l0: Lexical<'g>) -> Machine<'g>
    requires { IsMachineOf l0 machine }
    ensures form { form_of result ≡ l0.entry }
    ensures is { IsMachine result }
{
    let Lexical { flat, sets } = l0;
    let UnboundMachine {
        classes,
        parts,
        rows,
        kinds,
        next,
        begins,
        limit,
        part_limit,
    } = machine;
    Machine {
        flat,
        classes: classes.bind(sets),
        parts,
        rows,
        kinds,
        next,
        begins,
        limit,
        part_limit,
    }
}

// A grammar may have a part for each place in its rules: as many as that, and more, are kept.
fn part_limit(flat: &Flat) -> usize {
    flat.known();
    let mut places: usize = 0;
    for rule in 0..flat.rule_count() {
        places = places.saturating_add(flat.rhs(rule as u32).len());
    }
    PARTS.max(places.saturating_mul(4))
}

/// A machine with no states, which notes at most so many.
pub fn new_machine<'g>(
    alloc: Global,
    l0: Lexical<'g>,
    limit: usize,
) -> Result<Machine<'g>, AllocError>
    ensures form { IfOk result (λ m. form_of m ≡ l0.entry) }
    ensures is { IfOk result IsMachine }
{
    let classes = Classes::new(alloc, l0.sets)?;
    Ok(Machine {
        flat: l0.flat,
        classes,
        parts: Lists::new(alloc),
        rows: Lists::new(alloc),
        kinds: Vec::new(alloc),
        next: Vec::new(alloc),
        begins: Begins::new(alloc),
        limit,
        part_limit: part_limit(l0.flat),
    })
}

fn is_full(machine: &Machine<'_>) -> bool {
    machine.rows.count() >= machine.limit || machine.parts.count() >= machine.part_limit
}

/// Forgets all states where there are too many.
pub fn forget_if_full(machine: &mut Machine<'_>)
    requires { IsMachine machine.old }
    ensures form { form_of machine.new ≡ form_of machine.old }
    ensures is { IsMachine machine.new }
{
    if is_full(machine) {
        machine.begins.clear();
        machine.next.clear();
        machine.kinds.clear();
        machine.rows.clear();
        machine.parts.clear();
    }
}

/// The state of no text, for some starts. The hint tells where they may be noted.
pub fn begin(
    machine: &mut Machine<'_>,
    alloc: Global,
    starts: &[u32],
    hint: &mut usize,
) -> Result<usize, AllocError>
    requires is { IsMachine machine.old }
    requires starts { (k : ℕ) → Contains starts.now k → k < length machine.old.flat.now.tops }
    ensures goes { Goes machine.old machine.new }
    ensures there { IfOk result (λ s. s < length machine.new.rows) }
    ensures begins { IfOk result (λ s. (set : List AThread) ×
        IsBegin machine.new.flat.now machine.new.parts starts.now set
        (list_at machine.new.rows s)) }
{
    if let Some(state) = machine.begins.find(starts, hint) {
        return Ok(state);
    }
    let mut row = Vec::new(alloc);
    first_row(alloc, machine.flat, &machine.parts, starts, &mut row)?;
    let state = add_row(machine.flat, &mut machine.rows, &mut machine.kinds, row)?;
    machine.begins.note(alloc, starts, state)?;
    Ok(state)
}

// Makes the state that follows by a class.
fn make(
    machine: &mut Machine<'_>,
    alloc: Global,
    state: usize,
    class: usize,
) -> Result<usize, AllocError>
    requires is { IsMachine machine.old }
    requires state { state < length machine.old.rows }
    requires class { class < length machine.old.classes.rows }
    ensures goes { Goes machine.old machine.new }
    ensures classes { machine.new.classes ≡ machine.old.classes }
    ensures there { IfOk result (λ s. s < length machine.new.rows) }
    ensures steps { IfOk result (IsStepBy machine.new state class) }
{
    let mut row = Vec::new(alloc);
    next_row(
        alloc,
        machine.flat,
        &mut machine.parts,
        machine.rows.list(state),
        machine.classes.terminals(class),
        &mut row,
    )?;
    let to = add_row(machine.flat, &mut machine.rows, &mut machine.kinds, row)?;
    note(&mut machine.next, machine.limit, state, class, to)?;
    Ok(to)
}

/// The state that follows by a character.
pub fn step(
    machine: &mut Machine<'_>,
    alloc: Global,
    state: usize,
    c: char,
) -> Result<usize, AllocError>
    requires is { IsMachine machine.old }
    requires state { state < length machine.old.rows }
    ensures goes { Goes machine.old machine.new }
    ensures there { IfOk result (λ s. s < length machine.new.rows) }
    ensures steps { IfOk result (IsStepOver machine.new state c) }
{
    let class = machine.classes.class(c)?;
    match state_after(&machine.next, state, class) {
        Some(to) => Ok(to),
        None => {
            let made = make(machine, alloc, state, class)?;
            Ok(made)
        }
    }
}
