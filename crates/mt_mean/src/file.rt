// The typed file of a source.
ghost use Rattle.mt_answers.specs.Each.{viewed};
ghost use Rattle.mt_mean.specs.Sources.{filed, held_as};

use mt_answers::{Answer, Stage};
use mt_compile::{TypedFile, typed_file};
use std::alloc::Global;

/// What `mean` makes of each of its files: what the text spells, with its types, and the bytes of its functions' frames.
#[derive(Clone, Copy)]
pub struct Filing;

impl Stage for Filing {
    type Made = TypedFile;

    ghost step = { viewed held_as filed };

    fn make(&self, alloc: Global, number: u32, bytes: Vec<u8>) -> Result<TypedFile, Answer> {
        match typed_file(alloc, &bytes) {
            Ok(file) => Ok(file),
            Err(refused) => Err(Answer::of_source(number, refused)),
        }
    }
}
