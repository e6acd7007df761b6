// The command `dump`.
ghost use Rattle.std.specs.Prelude.{◌≡◌};
ghost use Rattle.mt_answers.specs.Answer.{ended_of};
ghost use Rattle.mt_pipeline.specs.Dump.{Dumps};
ghost use Rattle.mt_answers.specs.Put.{output_seen, with_output};
ghost use Rattle.mt_answers.specs.Seen.{files_seen};
ghost use Rattle.mt_pipeline.specs.Undumped.{answer_to_dump};

use memtag_dump::{DumpRefusal, dump};
use mt_answers::{Answer, put_bytes, read_file};
use mt_outside::{Files, Sink};
use std::alloc::Global;

/// Prints what an ELF file says of memory tagging.
pub fn dump_file<F: Files, K: Sink>(alloc: Global, file: &str, files: &mut F, out: &mut K) -> Answer
    ensures { Dumps file.now (with_output (files_seen F.Files files.old) (output_seen K.Sink out.old))
        (with_output (files_seen F.Files files.new) (output_seen K.Sink out.new)) (ended_of result) }
{
    let bytes = match read_file(alloc, 0, file, files) {
        Ok(bytes) => bytes,
        Err(answer) => return answer,
    };
    match dump(alloc, &bytes) {
        Ok(text) => put_bytes(text.as_str().as_bytes(), out),
        Err(refusal) => answer_to_dump(refusal),
    }
}

// What is answered where the first file has no text.
fn answer_to_dump(refusal: DumpRefusal) -> Answer
    ensures { result ≡ answer_to_dump refusal }
{
    match refusal {
        DumpRefusal::NoMemory => Answer::NoMemory,
        refusal => Answer::BadDump { file: 0, refusal },
    }
}
