// The image of objects.
ghost use Rattle.std.specs.Prelude.{◌≡◌, IfErr, IfOk};
ghost use Rattle.elf_image.specs.Image.{image_of};
ghost use Rattle.elf_image.specs.Places.{IsValid};
ghost use Rattle.mt_answers.specs.Answer.{IsAnswerTo, ended_of};
ghost use Rattle.mt_answers.specs.Counted.{IsReadFault};
ghost use Rattle.mt_answers.specs.Each.{names_of};
ghost use Rattle.mt_answers.specs.Seen.{files_seen};
ghost use Rattle.mt_link.specs.Link.{IsLinkedOf, NotLinked, WritesLinked};

use crate::object::ReadsObject;
use elf_image::{ImageParts, write_image};
use linker::link;
use mt_answers::{Answer, make_each};
use mt_outside::{Files, WriteAnswer};
use std::alloc::Global;

/// Links the objects of these files and writes the image.
pub fn write_linked<F: Files>(alloc: Global, names: &[&str], out: &str, files: &mut F) -> Answer
    ensures { WritesLinked (names_of names.now) out.now (files_seen F.Files files.old) (files_seen F.Files files.new) (ended_of result) }
{
    let parts = match link_files(alloc, names, files) {
        Ok(parts) => parts,
        Err(answer) => return answer,
    };
    let image = match write_image(alloc, &parts) {
        Ok(image) => image,
        Err(_) => return Answer::NoMemory,
    };
    match files.write(out, &image) {
        WriteAnswer::Done => Answer::Done,
        WriteAnswer::Failed => Answer::WriteFault { file: 0 },
        WriteAnswer::NoMemory => Answer::NoMemory,
    }
}

// The parts of the image of the objects that the files of these names hold, or the answer where there is none.
fn link_files<F: Files>(alloc: Global, names: &[&str], files: &mut F) -> Result<ImageParts, Answer>
    ensures linked { IfOk result (λ parts. IsLinkedOf (names_of names.now) (files_seen F.Files files.old) (image_of parts)) }
    ensures valid { IfOk result (λ parts. IsValid (image_of parts)) }
    ensures unlinked { IfErr result (IsAnswerTo (NotLinked (names_of names.now) (files_seen F.Files files.old)
        (files_seen F.Files files.new))) }
    ensures uncounted_ok { IfOk result (λ _. F.read_faults files.new ≡ F.read_faults files.old) }
    ensures uncounted_err { IfErr result (λ answer. ¬ IsReadFault (ended_of answer).why
        → F.read_faults files.new ≡ F.read_faults files.old) }
    ensures kept { F.told files.new ≡ F.told files.old }
    ensures writes { F.write_faults files.new ≡ F.write_faults files.old }
{
    let objects = match make_each(alloc, &ReadsObject, names, files) {
        Ok(objects) => objects,
        Err(answer) => return Err(answer),
    };
    match link(alloc, &objects) {
        Ok(parts) => Ok(parts),
        Err(refusal) => Err(Answer::of_link(refusal)),
    }
}
