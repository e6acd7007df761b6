//! What texts mean together.

ghost use Rattle.std.specs.Prelude.{◌≡◌, ◌⊎◌, ℕ, List, Some, Err, IfOk, IfErr, MatchResult};
ghost use Rattle.block_meaning.specs.Meaning.{Outcome};
ghost use Rattle.mean_program.specs.declared.end.MeanFault.TheVariants.{InputFault, OutputFault};
ghost use Rattle.mean_texts.specs.Answers.{TextsGive, IsCause, IsLate};
ghost use Rattle.mean_texts.specs.Refusal.{AreRefused};
ghost use Rattle.mean_texts.specs.Texts.{AreFilesOf, AreTogether, HaveMeaning, TextsMean, texts_of};
ghost use Rattle.mt_outside.specs.Told.{Rose};

use crate::files::Files;
use crate::refusal::MeanRefusal;
use crate::run::mean_files;
use mean_program::MeanEnd;
use mt_compile::{SourceText, typed_file};
use mt_outside::{Sink, Source};
use std::alloc::Global;

// The typed files of the texts.
fn files_of(alloc: Global, texts: &[SourceText]) -> Result<Files, MeanRefusal>
    ensures files { IfOk result (AreFilesOf (texts_of texts.now)) }
    ensures refused { IfErr result (λ r. (r ≡ MeanRefusal.NoMemory) ⊎ AreRefused (texts_of texts.now) r) }
{
    let mut files = Files::new(alloc);
    for (number, text) in texts.iter().enumerate() {
        match typed_file(alloc, text.bytes.as_slice()) {
            Ok(file) => files.push(file)?,
            Err(refused) => return Err(MeanRefusal::of_source(number, refused.refusal)),
        }
    }
    Ok(files)
}

/// Runs what the texts mean together (C11 5.1.2.3) over a source and a sink, with a stack of so many bytes and at most so many units of
/// work.
///
/// # Errors
///
/// `Compile` for the first text that is refused, `Link` where the names of the texts are not linked, both before anything is taken or
/// put. `Fault` where the source or the sink failed. `NoMemory` where the host has no memory left, or the program runs for more than
/// 2^64 - 1 turns. What was put until then is a prefix of what the program puts.
pub fn mean_texts<S: Source, K: Sink>(
    alloc: Global,
    texts: &[SourceText],
    source: &mut S,
    sink: &mut K,
    stack: u64,
    work: u64,
) -> Result<MeanEnd, MeanRefusal>
    // What the texts mean is answered: the end, what was put, and what is left of the input. Or memory was wanting, or the source or the
    // sink failed, and a part of the output was put.
    ensures means { (input taken : List ℕ) → S.Source.told source.old ≡ Some input → K.Sink.told sink.old ≡ Some taken → (o : Outcome)
        → TextsMean (texts_of texts.now) stack input work o
        → TextsGive taken o result (S.Source.told source.new) (K.Sink.told sink.new) }

    // An end is answered only where they mean something, and each refusal by its cause.
    ensures meaning { IfOk result (λ _. (input : List ℕ) → HaveMeaning (texts_of texts.now) stack input work) }
    ensures refused { IfErr result (IsCause (texts_of texts.now)) }
    ensures input_fault { result ≡ Err (MeanRefusal.Fault InputFault) → Rose (S.Source.faults source.old) (S.Source.faults source.new) }
    ensures output_fault { result ≡ Err (MeanRefusal.Fault OutputFault) → Rose (K.Sink.faults sink.old) (K.Sink.faults sink.new) }

    // Texts that have files whose names are linked are not refused, and others are, want of memory aside.
    ensures complete { AreTogether (texts_of texts.now) → IfErr result IsLate }
    ensures refuses { (refusal : MeanRefusal) → AreRefused (texts_of texts.now) refusal →
        MatchResult result (λ _. ⊥) (λ found. (found ≡ refusal) ⊎ (found ≡ MeanRefusal.NoMemory)) }

    // Nothing is taken or put where they are refused.
    ensures source_kept { (refusal : MeanRefusal) → AreRefused (texts_of texts.now) refusal → source.new ≡ source.old }
    ensures sink_kept { (refusal : MeanRefusal) → AreRefused (texts_of texts.now) refusal → sink.new ≡ sink.old }
{
    match files_of(alloc, texts) {
        Ok(files) => mean_files(alloc, &files, source, sink, stack, work),
        Err(refusal) => Err(refusal),
    }
}
