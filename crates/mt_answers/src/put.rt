// Bytes on the output.
ghost use Rattle.mt_answers.specs.Put.{IsPut, output_seen};

use crate::answer::Answer;
use mt_outside::{PutAnswer, Sink};

/// Puts these bytes on the output.
pub fn put_bytes<K: Sink>(bytes: &[u8], out: &mut K) -> Answer
    ensures { IsPut bytes.now (output_seen K.Sink out.old) (output_seen K.Sink out.new) result }
{
    match out.put(bytes) {
        PutAnswer::Done => Answer::Done,
        PutAnswer::Failed => Answer::OutputFault,
    }
}
