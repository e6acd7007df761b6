// Sources that are read and compiled in turn, and the image that is built of them.
ghost use Rattle.std.specs.Prelude.{◌≡◌, IfErr, IfOk};
ghost use Rattle.elf_image.specs.Image.{image_of};
ghost use Rattle.mt_answers.specs.Answer.{IsAnswerTo, ended_of};
ghost use Rattle.mt_answers.specs.Counted.{IsReadFault};
ghost use Rattle.mt_answers.specs.Each.{names_of, viewed};
ghost use Rattle.mt_answers.specs.Seen.{files_seen};
ghost use Rattle.mt_pipeline.specs.Sources.{IsBuiltOf, NotBuilt, compiled};

use crate::builder::link;
use elf_image::ImageParts;
use mt_answers::{Answer, Stage, make_each};
use mt_compile::{SourceText, compile};
use mt_outside::Files;
use std::alloc::Global;

// The compiler, which makes code of each source.
#[derive(Clone, Copy)]
struct Compiling;

impl Stage for Compiling {
    type Made = Vec<u32>;

    ghost step = { viewed (λ words. words.items) compiled };

    fn make(&self, alloc: Global, number: u32, bytes: Vec<u8>) -> Result<Vec<u32>, Answer> {
        match compile(alloc, &SourceText { bytes }) {
            Ok(words) => Ok(words),
            Err(refused) => Err(Answer::of_source(number, refused)),
        }
    }
}

/// The parts of the image that is built of the files of these names, or the answer where none is.
pub fn build_files<F: Files>(
    alloc: Global,
    names: &[&str],
    files: &mut F,
) -> Result<ImageParts, Answer>
    ensures built { IfOk result (λ parts. IsBuiltOf (names_of names.now) (files_seen F.Files files.old) (image_of parts)) }
    ensures unbuilt { IfErr result (IsAnswerTo (NotBuilt (names_of names.now) (files_seen F.Files files.old)
        (files_seen F.Files files.new))) }
    ensures uncounted_ok { IfOk result (λ _. F.read_faults files.new ≡ F.read_faults files.old) }
    ensures uncounted_err { IfErr result (λ answer. ¬ IsReadFault (ended_of answer).why
        → F.read_faults files.new ≡ F.read_faults files.old) }
    ensures kept { F.told files.new ≡ F.told files.old }
    ensures writes { F.write_faults files.new ≡ F.write_faults files.old }
{
    let objects = match make_each(alloc, &Compiling, names, files) {
        Ok(objects) => objects,
        Err(answer) => return Err(answer),
    };
    match link(alloc, objects) {
        Ok(parts) => Ok(parts),
        Err(refusal) => Err(Answer::of_link(refusal)),
    }
}
