// The run of an image.
ghost use Rattle.std.specs.Prelude.{◌≡◌, ◌≢◌, ◌⊎◌, [], IfErr, IfOk, MatchResult};
ghost use Rattle.elf_image.specs.Image.{Image, image_of};
ghost use Rattle.elf_image.specs.Places.{IsValid};
ghost use Rattle.elf_image.specs.Ranges.{IsFileOf};
ghost use Rattle.mt_pipeline.specs.RunFile.{RefusesRun};
ghost use Rattle.mte_machine.specs.Objects.{objects};
ghost use Rattle.tag_startup.specs.Parts.{IsStack};
ghost use Rattle.tag_startup.specs.Starts.{Starts, StartFault};
ghost use Rattle.tag_startup.specs.Machine.{RunsImage, launch};

use elf_image::{ImageParts, read_image};
use mt_answers::RunRefusal;
use mt_base::Tag;
use mt_outside::{Sink, Source};
use mte_machine::MachineEnd;
use std::alloc::Global;
use tag_startup::{StartRefusal, start};

/// Loads an image from its bytes and runs it, for at most n steps. The choices, of which there is one at least, are the
/// random tags that the run draws in turn, and the stack has so many bytes: a multiple of 1,024 from 1,024 to 67,108,864.
pub fn run_image<S: Source, K: Sink>(
    alloc: Global,
    bytes: &[u8],
    choices: &[Tag],
    stack: u64,
    n: u64,
    source: &mut S,
    sink: &mut K,
) -> Result<MachineEnd, RunRefusal>
    requires choices { choices.now ≢ [] }
    requires stack { IsStack stack }
    // The bytes are the file of an image, and its run ends so.
    ensures image { IfOk result (λ _. (image : Image) × IsFileOf image bytes.now) }
    ensures runs { IfOk result (λ end. (image : Image) → IsFileOf image bytes.now →
        RunsImage (launch image choices.now stack n) (objects S.Source K.Sink source.old sink.old)
        (objects S.Source K.Sink source.new sink.new) end) }

    // What is refused is refused for its cause, unless memory ran out, and bytes with a cause are refused for it.
    ensures refused { IfErr result (λ refusal. (refusal ≡ RunRefusal.NoMemory) ⊎ RefusesRun bytes.now refusal) }
    ensures refuses { (cause : RunRefusal) → RefusesRun bytes.now cause →
        MatchResult result (λ _. ⊥) (λ refusal. (refusal ≡ cause) ⊎ (refusal ≡ RunRefusal.NoMemory)) }

    // After a refusal nothing was taken or put.
    ensures silent { IfErr result (λ _. (source.new ≡ source.old) × (sink.new ≡ sink.old)) }
{
    let parts = match read_image(alloc, bytes) {
        Ok(parts) => parts,
        Err(refusal) => return Err(RunRefusal::of_image(refusal)),
    };
    match run_parts(alloc, &parts, choices, stack, n, source, sink) {
        Ok(end) => Ok(end),
        Err(refusal) => Err(RunRefusal::of_start(refusal)),
    }
}

/// Runs the image of these parts.
pub fn run_parts<S: Source, K: Sink>(
    alloc: Global,
    parts: &ImageParts,
    choices: &[Tag],
    stack: u64,
    n: u64,
    source: &mut S,
    sink: &mut K,
) -> Result<MachineEnd, StartRefusal>
    requires valid { IsValid (image_of parts.now) }
    requires choices { choices.now ≢ [] }
    requires stack { IsStack stack }
    ensures runs { IfOk result (λ end. RunsImage (launch (image_of parts.now) choices.now stack n)
        (objects S.Source K.Sink source.old sink.old) (objects S.Source K.Sink source.new sink.new) end) }
    ensures starts { Starts (image_of parts.now) → IfErr result (λ e. e ≡ StartRefusal.NoMemory) }
    ensures refused { IfErr result (λ e. (e ≡ StartRefusal.NoMemory) ⊎ StartFault (image_of parts.now) e) }
    ensures silent { IfErr result (λ _. (source.new ≡ source.old) × (sink.new ≡ sink.old)) }
{
    match start(alloc, parts, choices, stack) {
        Ok(mut machine) => Ok(machine.run(source, sink, n)),
        Err(refusal) => Err(refusal),
    }
}
