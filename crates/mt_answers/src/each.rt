// The files of a job, read in turn and handed on.
ghost use Rattle.std.specs.Prelude.{◌≡◌, IfErr, IfOk};
ghost use Rattle.mt_answers.specs.Answer.{IsAnswerTo, ended_of};
ghost use Rattle.mt_answers.specs.Counted.{IsReadFault};
ghost use Rattle.mt_answers.specs.Each.{AreMadeOf, IsMadeOf, Step, Stops, StopsAt, file_number, names_of};
ghost use Rattle.mt_answers.specs.Seen.{files_seen};

use crate::answer::Answer;
use crate::read::read_file;
use mt_outside::Files;
use std::alloc::Global;

/// What a command makes of each file of its job.
pub trait Stage {
    /// What it makes of one.
    type Made: Drop;

    /// What that is, and why there is none.
    ghost step: { Step Self.Made };

    /// What is made of these bytes, which are those of the file with this number, or the answer where nothing is.
    fn make(&self, alloc: Global, number: u32, bytes: Vec<u8>) -> Result<Self::Made, Answer>
        ensures made { IfOk result (step.Makes bytes.items) }
        ensures refused { IfErr result (IsAnswerTo (step.Refuses number bytes.items)) }
        ensures reads { IfErr result (λ answer. ¬ IsReadFault (ended_of answer).why) };
}

/// What is made of each of the files of these names, which are read in turn, or the answer at the first of which nothing is.
pub fn make_each<F: Files, T: Stage>(
    alloc: Global,
    stage: &T,
    names: &[&str],
    files: &mut F,
) -> Result<Vec<T::Made>, Answer>
    ensures made { IfOk result (λ made. AreMadeOf T.step (files_seen F.Files files.old) (names_of names.now) made.items) }
    ensures stops { IfErr result (IsAnswerTo (Stops T.step (files_seen F.Files files.old) (files_seen F.Files files.new)
        0 (names_of names.now))) }
    ensures uncounted_ok { IfOk result (λ _. F.read_faults files.new ≡ F.read_faults files.old) }
    ensures uncounted_err { IfErr result (λ answer. ¬ IsReadFault (ended_of answer).why
        → F.read_faults files.new ≡ F.read_faults files.old) }
    ensures kept { F.told files.new ≡ F.told files.old }
    ensures writes { F.write_faults files.new ≡ F.write_faults files.old }
{
    let mut all = Vec::new(alloc);
    for (place, name) in names.iter().enumerate() {
        match make_one(alloc, stage, number_of(place), name, files) {
            Ok(made) => {
                if all.push(made).is_err() {
                    return Err(Answer::NoMemory);
                }
            }
            Err(answer) => return Err(answer),
        }
    }
    Ok(all)
}

// A file's number in 32 bits.
fn number_of(place: usize) -> u32
    ensures { result ≡ file_number place }
{
    u32::try_from(place).unwrap_or(u32::MAX)
}

// What is made of the file with this number.
fn make_one<F: Files, T: Stage>(
    alloc: Global,
    stage: &T,
    number: u32,
    name: &str,
    files: &mut F,
) -> Result<T::Made, Answer>
    ensures made { IfOk result (IsMadeOf T.step (files_seen F.Files files.old) name.now) }
    ensures stops { IfErr result (IsAnswerTo (StopsAt T.step number name.now
        (files_seen F.Files files.old) (files_seen F.Files files.new))) }
    ensures uncounted_ok { IfOk result (λ _. F.read_faults files.new ≡ F.read_faults files.old) }
    ensures uncounted_err { IfErr result (λ answer. ¬ IsReadFault (ended_of answer).why
        → F.read_faults files.new ≡ F.read_faults files.old) }
    ensures kept { F.told files.new ≡ F.told files.old }
    ensures writes { F.write_faults files.new ≡ F.write_faults files.old }
{
    match read_file(alloc, number, name, files) {
        Ok(bytes) => stage.make(alloc, number, bytes),
        Err(answer) => Err(answer),
    }
}
