// From the texts of sources to an image.
ghost use Rattle.std.specs.Prelude.{◌≡◌, ◌⊎◌, ℕ, IfOk, IfErr, MatchResult, map};
ghost use Rattle.elf_image.specs.Image.{image_of};
ghost use Rattle.mt_pipeline.specs.Agrees.{Return};
ghost use Rattle.mt_pipeline.specs.Built.{AreCompiled, Builds, IsBuilt, Linked, RefusesLink, RefusesTexts, texts_of};
ghost use Rattle.mt_pipeline.specs.Unbuilt.{IsCause};

use elf_base::{Bytes, Name};
use elf_image::{ImageParts, write_image};
use linker::LinkRefusal;
use mt_answers::BuildRefusal;
use mt_compile::{Refused, SourceText, compile};
use std::alloc::Global;

/// Where the code of an image without data begins, and so its entry.
const CODE_PLACE: u64 = 0x1000;

/// The most objects that are linked.
const MOST_OBJECTS: usize = 16;

/// The image of these texts. Today it is that of one text, since each that is taken defines `main`.
pub fn build(alloc: Global, texts: &[SourceText]) -> Result<Vec<u8>, BuildRefusal>
    ensures built { IfOk result (λ file. IsBuilt (texts_of texts.now) file.items) }
    ensures refused { IfErr result (λ refusal. (refusal ≡ BuildRefusal.NoMemory)
        ⊎ ((place : ℕ) × RefusesTexts (texts_of texts.now) refusal place)) }

    // Want of memory aside, the text of a constant is taken, and texts that are refused have this refusal.
    ensures takes { (n : ℕ) → Return (texts_of texts.now) n → IfErr result (λ refusal. refusal ≡ BuildRefusal.NoMemory) }
    ensures refuses { (refusal : BuildRefusal) → (place : ℕ) → RefusesTexts (texts_of texts.now) refusal place →
        MatchResult result (λ _. ⊥) (λ found. (found ≡ refusal) ⊎ (found ≡ BuildRefusal.NoMemory)) }
{
    match image_bytes(alloc, texts) {
        Ok(image) => Ok(image),
        Err(unbuilt) => Err(unbuilt.refusal),
    }
}

// The same, and a refusal with the byte that is told of it.
fn image_bytes(alloc: Global, texts: &[SourceText]) -> Result<Vec<u8>, Refused<BuildRefusal>>
    ensures built { IfOk result (λ file. IsBuilt (texts_of texts.now) file.items) }
    ensures refused { IfErr result (IsCause (texts_of texts.now)) }
{
    match parts_of(alloc, texts) {
        Ok(parts) => Ok(write_image(alloc, &parts)?),
        Err(unbuilt) => Err(unbuilt),
    }
}

// The parts of the image of these texts.
fn parts_of(alloc: Global, texts: &[SourceText]) -> Result<ImageParts, Refused<BuildRefusal>>
    ensures parts { IfOk result (λ parts. Builds (texts_of texts.now) (image_of parts)) }
    ensures refused { IfErr result (IsCause (texts_of texts.now)) }
{
    let objects = match objects_of(alloc, texts) {
        Ok(objects) => objects,
        Err(unbuilt) => return Err(unbuilt),
    };
    match link(alloc, objects) {
        Ok(parts) => Ok(parts),
        Err(refusal) => Err(BuildRefusal::of_link(refusal)),
    }
}

// The words of each text's code, in order.
fn objects_of(alloc: Global, texts: &[SourceText]) -> Result<Vec<Vec<u32>>, Refused<BuildRefusal>>
    ensures compiled { IfOk result (λ objects. AreCompiled (texts_of texts.now) (map (λ words. words.items) objects.items)) }
    ensures refused { IfErr result (IsCause (texts_of texts.now)) }
{
    let mut objects = Vec::new(alloc);
    for (file, text) in texts.iter().enumerate() {
        match compile(alloc, text) {
            Ok(words) => objects.push(words)?,
            Err(refused) => return Err(BuildRefusal::of_source(file, refused)),
        }
    }
    Ok(objects)
}

/// The parts of the image of the code of texts, each of which defines `main`.
pub fn link(alloc: Global, mut objects: Vec<Vec<u32>>) -> Result<ImageParts, LinkRefusal>
    ensures linked { IfOk result (λ parts. Linked (map (λ words. words.items) objects.items) (image_of parts)) }
    ensures refused { IfErr result (λ refusal. (refusal ≡ LinkRefusal.NoMemory)
        ⊎ RefusesLink (map (λ words. words.items) objects.items) refusal) }
{
    if objects.len() > MOST_OBJECTS {
        return Err(LinkRefusal::TooManyObjects {
            count: objects.len() as u64,
        });
    }
    if objects.len() > 1 {
        let name = Name::from_slice(alloc, b"main")?;
        return Err(LinkRefusal::Duplicate { name });
    }
    match objects.pop() {
        Some(words) => Ok(ImageParts {
            entry: CODE_PLACE,
            relocs: Vec::new(alloc),
            descriptors: Bytes::new(Vec::new(alloc)),
            rodata: Bytes::new(Vec::new(alloc)),
            words,
            filled: Bytes::new(Vec::new(alloc)),
            zero_bytes: 0,
        }),
        None => Err(LinkRefusal::NoMain),
    }
}
