//! What typed files mean together.

ghost use Rattle.std.specs.Prelude.{◌≡◌, ℕ, List, Some, Err, IfOk, IfErr, length};
ghost use Rattle.block_meaning.specs.Meaning.{Meaning, Outcome};
ghost use Rattle.mean_link.specs.LinkFault.{AreLinked};
ghost use Rattle.mean_program.specs.declared.end.MeanFault.TheVariants.{InputFault, OutputFault};
ghost use Rattle.mean_start.specs.Files.{frames_in};
ghost use Rattle.mean_texts.specs.Answers.{TextsGive};
ghost use Rattle.mean_texts.specs.Laws.Causes.{IsFilesCause};
ghost use Rattle.mean_texts.specs.Texts.{names_of, program_of};
ghost use Rattle.mt_outside.specs.Told.{Rose};

use crate::files::Files;
use crate::refusal::MeanRefusal;
use mean_link::link;
use mean_program::{MeanEnd, mean};
use mt_outside::{Sink, Source};
use std::alloc::Global;

/// Runs the program of typed files over a source and a sink, with a stack of so many bytes and at most so many units of work, where their
/// names are linked.
///
/// # Errors
///
/// `Link` where they are not, before anything is taken or put; else as `mean`.
pub fn mean_files<S: Source, K: Sink>(
    alloc: Global,
    files: &Files,
    source: &mut S,
    sink: &mut K,
    stack: u64,
    work: u64,
) -> Result<MeanEnd, MeanRefusal>
    requires trees { length files.now.trees ≡ length files.now.units }
    requires frames { length files.now.frames.bytes.items ≡ length files.now.units }
    ensures means { AreLinked (names_of files.now) → (input taken : List ℕ) → S.Source.told source.old ≡ Some input
        → K.Sink.told sink.old ≡ Some taken → (o : Outcome)
        → Meaning (program_of files.now.units (frames_in files.now.frames) stack) input work o
        → TextsGive taken o result (S.Source.told source.new) (K.Sink.told sink.new) }

    // It answers an end only where the names are linked, and each refusal by its cause.
    ensures linked { IfOk result (λ _. AreLinked (names_of files.now)) }
    ensures refused { IfErr result (IsFilesCause (names_of files.now)) }
    ensures input_fault { result ≡ Err (MeanRefusal.Fault InputFault) → Rose (S.Source.faults source.old) (S.Source.faults source.new) }
    ensures output_fault { result ≡ Err (MeanRefusal.Fault OutputFault) → Rose (K.Sink.faults sink.old) (K.Sink.faults sink.new) }

    // Nothing is taken or put where they are not linked.
    ensures source_kept { ¬ AreLinked (names_of files.now) → source.new ≡ source.old }
    ensures sink_kept { ¬ AreLinked (names_of files.now) → sink.new ≡ sink.old }
{
    match link(alloc, files.trees.as_slice(), files.units.as_slice()) {
        Err(refusal) => Err(MeanRefusal::of_link(refusal)),
        Ok(()) => match mean(
            alloc,
            files.units.as_slice(),
            &files.frames,
            source,
            sink,
            stack,
            work,
        ) {
            Ok(end) => Ok(end),
            Err(fault) => Err(MeanRefusal::of_fault(fault)),
        },
    }
}
