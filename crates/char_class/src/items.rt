//! The items that pieces make.
ghost use Rattle.std.specs.Prelude.{◌≡◌, ◌≤◌, ◌<◌, length};
ghost use Rattle.language_model.specs.Classes.{item_of, range_to, range_start, items_of};
ghost use Rattle.char_class.specs.Reading.{item_at, Gives, Fails};
ghost use Rattle.char_class.specs.declared.items.ItemsError.TheVariants.{Memory};

use language_model::{ClassFault, ClassItem, Piece};
use std::alloc::{AllocError, AllocFailed, Global};

/// Why there are no items.
#[derive(Debug, Drop)]
pub enum ItemsError {
    Fault(ClassFault),
    Memory,
}

impl From<AllocError> for ItemsError {
    ghost from_gives = { λ _ e. e ≡ Memory };

    fn from(_error: AllocError) -> ItemsError {
        ItemsError::Memory
    }
}

impl<T: Drop> From<AllocFailed<T>> for ItemsError {
    ghost from_gives = { λ _ e. e ≡ Memory };

    fn from(_error: AllocFailed<T>) -> ItemsError {
        ItemsError::Memory
    }
}

fn item_of(piece: Piece) -> Result<ClassItem, ClassFault>
    ensures { result ≡ item_of piece }
{
    match piece {
        Piece::One(c) => Ok(ClassItem::Span(c, c)),
        Piece::Hyphen => Ok(ClassItem::Span('-', '-')),
        Piece::Set(item) => Ok(item),
        Piece::Bad(fault) => Err(fault),
    }
}

fn range_to(low: char, piece: Piece) -> Result<ClassItem, ClassFault>
    ensures { result ≡ range_to low piece }
{
    match piece {
        Piece::One(c) if low <= c => Ok(ClassItem::Span(low, c)),
        Piece::Hyphen if low <= '-' => Ok(ClassItem::Span(low, '-')),
        Piece::Bad(fault) => Err(fault),
        _ => Err(ClassFault::BadRange),
    }
}

fn range_start(first: Piece, second: Piece) -> Option<char>
    ensures { result ≡ range_start first second }
{
    match (first, second) {
        (Piece::One(c), Piece::Hyphen) => Some(c),
        (Piece::Hyphen, Piece::Hyphen) => Some('-'),
        _ => None,
    }
}

/// The first item, and of how many pieces it is made.
fn item_at(pieces: &[Piece]) -> (Result<ClassItem, ClassFault>, usize)
    requires { 0 < length pieces.now }
    ensures value { result ≡ item_at pieces.now }
    ensures moves { 0 < result.1 }
    ensures within { result.1 ≤ length pieces.now }
{
    if pieces.len() > 2 {
        if let Some(low) = range_start(pieces[0], pieces[1]) {
            return (range_to(low, pieces[2]), 3);
        }
    }
    (item_of(pieces[0]), 1)
}

/// The items that the pieces of a class make: characters, ranges and properties.
pub fn items_of(alloc: Global, pieces: &[Piece]) -> Result<Vec<ClassItem>, ItemsError>
    ensures { Gives (λ items. items.items) result (items_of pieces.now) }
{
    let mut items = Vec::new(alloc);
    let mut at = 0;
    while at < pieces.len() {
        let (item, len) = item_at(&pieces[at..]);
        match item {
            Ok(item) => items.push(item)?,
            Err(fault) => return Err(ItemsError::Fault(fault)),
        }
        at += len;
    }
    Ok(items)
}
