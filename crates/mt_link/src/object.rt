// The object of a file.
ghost use Rattle.elf_obj.specs.Object.{object_of};
ghost use Rattle.mt_answers.specs.Each.{viewed};
ghost use Rattle.mt_link.specs.Link.{object_step};

use elf_obj::{ObjectParts, read_object};
use mt_answers::{Answer, Stage};
use std::alloc::Global;

/// What `link` makes of each of its files: the object whose file it is.
#[derive(Clone, Copy)]
pub struct ReadsObject;

impl Stage for ReadsObject {
    type Made = ObjectParts;

    ghost step = { viewed object_of object_step };

    fn make(&self, alloc: Global, number: u32, bytes: Vec<u8>) -> Result<ObjectParts, Answer> {
        match read_object(alloc, &bytes) {
            Ok(parts) => Ok(parts),
            Err(refusal) => Err(Answer::of_object(number, refusal)),
        }
    }
}
