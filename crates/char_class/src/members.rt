//! Which characters have a property or match an item.
ghost use Rattle.std.specs.Prelude.{◌≡◌};
ghost use Rattle.language_model.specs.Classes.{has_property, item_has, some_item_has};
ghost use Rattle.language_model.specs.declared.class.Property.TheVariants.{Word};

use language_model::{ClassItem, Property};
use unicode::perl::is_word_character;
use unicode::properties::{GeneralCategory, is_alphabetic, is_white_space};

/// Whether `\w` has the character.
pub fn is_word(c: char) -> bool
    ensures { result ≡ has_property Word c }
{
    is_word_character(c)
}

fn is_digit(c: char) -> bool
    ensures { result ≡ has_property Property.Digit c }
{
    GeneralCategory::for_char(c) == GeneralCategory::DecimalNumber
}

fn has_property(property: Property, c: char) -> bool
    ensures { result ≡ has_property property c }
{
    match property {
        Property::Digit => is_digit(c),
        Property::Space => is_white_space(c),
        Property::Word => is_word(c),
        Property::Alpha => is_alphabetic(c),
        Property::Alnum => is_alphabetic(c) || is_digit(c),
        Property::Upper => GeneralCategory::for_char(c) == GeneralCategory::UppercaseLetter,
        Property::Lower => GeneralCategory::for_char(c) == GeneralCategory::LowercaseLetter,
        Property::HexDigit => c.is_ascii_hexdigit(),
    }
}

fn item_has(item: ClassItem, c: char) -> bool
    ensures { result ≡ item_has item c }
{
    match item {
        ClassItem::Span(low, high) => low <= c && c <= high,
        ClassItem::Having(property) => has_property(property, c),
        ClassItem::Lacking(property) => !has_property(property, c),
    }
}

/// Whether a character is in one of the items.
pub fn some_item_has(items: &[ClassItem], c: char) -> bool
    ensures { result ≡ some_item_has items.now c }
{
    items.iter().any(|item| item_has(*item, c))
}
