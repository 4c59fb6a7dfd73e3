//! The action that the value of the adverb `action` tells.
ghost use Rattle.std.specs.Prelude.{◌≡◌, chars, IfOk, option_map};
ghost use Rattle.language_model.specs.Actions.{action_of as action_told};
ghost use Rattle.value_text.specs.Meaning.{action_of};

use std::alloc::{AllocError, Global};
use value_text::{Action, DescriptorRefusal, read_descriptor};

/// The action that the text tells, if it tells one.
pub fn read_action(alloc: Global, text: &str) -> Result<Option<Action>, AllocError>
    ensures { IfOk result (λ action. option_map action_of action ≡ action_told (chars text.now)) }
{
    match read_descriptor(alloc, text) {
        Ok(action) => Ok(Some(action)),
        Err(DescriptorRefusal::BadItem) => Ok(None),
        Err(DescriptorRefusal::NoMemory) => Err(AllocError),
    }
}
