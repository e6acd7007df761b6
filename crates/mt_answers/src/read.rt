// The bytes of a file of a job.
ghost use Rattle.std.specs.Prelude.{◌≡◌, IfErr, IfOk};
ghost use Rattle.mt_answers.specs.Answer.{IsAnswerTo, ended_of};
ghost use Rattle.mt_answers.specs.Counted.{IsReadFault};
ghost use Rattle.mt_answers.specs.Read.{CauseOfNoBytes};
ghost use Rattle.mt_answers.specs.Seen.{MayHold, files_seen};

use crate::answer::Answer;
use mt_outside::{Files, ReadAnswer};
use std::alloc::Global;

/// The bytes of the file with this number among those that the job reads, or what is answered where they are not had.
pub fn read_file<F: Files>(
    alloc: Global,
    number: u32,
    name: &str,
    files: &mut F,
) -> Result<Vec<u8>, Answer>
    ensures bytes { IfOk result (λ bytes. MayHold (files_seen F.Files files.old) name.now bytes.items) }
    ensures cause { IfErr result (IsAnswerTo (CauseOfNoBytes number name.now
        (files_seen F.Files files.old) (files_seen F.Files files.new))) }
    ensures uncounted_ok { IfOk result (λ _. F.read_faults files.new ≡ F.read_faults files.old) }
    ensures uncounted_err { IfErr result (λ answer. ¬ IsReadFault (ended_of answer).why
        → F.read_faults files.new ≡ F.read_faults files.old) }
    ensures kept { F.told files.new ≡ F.told files.old }
    ensures writes { F.write_faults files.new ≡ F.write_faults files.old }
{
    match files.read(alloc, name) {
        ReadAnswer::Got(bytes) => Ok(bytes),
        ReadAnswer::Absent => Err(Answer::NoFile { file: number }),
        ReadAnswer::Failed => Err(Answer::ReadFault { file: number }),
        ReadAnswer::NoMemory => Err(Answer::NoMemory),
    }
}
