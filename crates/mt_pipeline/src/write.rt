// The command `build`.
ghost use Rattle.mt_answers.specs.Answer.{ended_of};
ghost use Rattle.mt_answers.specs.Each.{names_of};
ghost use Rattle.mt_answers.specs.Seen.{files_seen};
ghost use Rattle.mt_pipeline.specs.Build.{WritesBuilt};

use crate::sources::build_files;
use elf_image::write_image;
use mt_answers::Answer;
use mt_outside::{Files, WriteAnswer};
use std::alloc::Global;

/// Builds sources and writes the image.
pub fn write_built<F: Files>(alloc: Global, names: &[&str], out: &str, files: &mut F) -> Answer
    ensures { WritesBuilt (names_of names.now) out.now (files_seen F.Files files.old) (files_seen F.Files files.new) (ended_of result) }
{
    let parts = match build_files(alloc, names, files) {
        Ok(parts) => parts,
        Err(answer) => return answer,
    };
    let image = match write_image(alloc, &parts) {
        Ok(image) => image,
        Err(_) => return Answer::NoMemory,
    };
    match files.write(out, &image) {
        WriteAnswer::Done => Answer::Done,
        WriteAnswer::Failed => Answer::WriteFault { file: 0 },
        WriteAnswer::NoMemory => Answer::NoMemory,
    }
}
