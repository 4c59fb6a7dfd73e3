// The words of the command line.
ghost use Rattle.std.specs.Prelude.{◌≡◌, map, string_bytes, option_map, IfOk};
ghost use Rattle.words_model.specs.Words.{job_asked};
ghost use Rattle.command_line.specs.Jobs.{job_of};

use crate::command::slif_command;
use crate::job::{Job, job_given};
use clap::error::ErrorKind;
use std::alloc::{AllocError, Global};

/// The job that the words ask for, where they ask for one. The words are those after the program's own name. It fails where
/// there is no memory.
pub fn read_words<'a>(alloc: Global, words: &'a [String]) -> Result<Option<Job<'a>>, AllocError>
    ensures { IfOk result (λ job. option_map job_of job ≡ job_asked (map string_bytes words.now)) }
{
    let command = slif_command(alloc)?;
    match command.try_get_matches_from(words) {
        Ok(matches) => Ok(job_given(&matches)),
        Err(error) => {
            if error.kind() == ErrorKind::OutOfMemory {
                Err(AllocError)
            } else {
                Ok(None)
            }
        }
    }
}
