// Why texts are not built, and why an image does not run.
ghost use Rattle.std.specs.Prelude.{◌≡◌};
ghost use Rattle.mt_answers.specs.declared.refusal.BuildRefusal.TheVariants.{NoMemory as BuildNoMemory};

use crate::answer::Answer;
use elf_image::ImageRefusal;
use linker::LinkRefusal;
use mt_compile::{CompileRefusal, Refused};
use std::alloc::AllocError;
use tag_startup::StartRefusal;
use thiserror::Error;

/// Why texts are not built. A refusal inside is never the want of memory.
#[derive(Debug, Drop, Error)]
pub enum BuildRefusal {
    /// The text of this number, from 0, is refused.
    #[error("{refusal}")]
    Compile { file: u32, refusal: CompileRefusal },
    /// Their code is not linked.
    #[error("{0}")]
    Link(LinkRefusal),
    /// Want of memory.
    #[error("NoMemory")]
    NoMemory,
}

impl BuildRefusal {
    ghost use Rattle.mt_answers.specs.Status.{build_number};
    ghost use Rattle.mt_answers.specs.Refusals.{of_link, of_source};

    /// The refusal's number, and 0 for want of memory.
    pub fn number(&self) -> u8
        ensures { result ≡ build_number self.now }
    {
        match self {
            BuildRefusal::Compile { refusal, .. } => refusal.number(),
            BuildRefusal::Link(refusal) => refusal.number(),
            BuildRefusal::NoMemory => 0,
        }
    }

    /// The text of this number, from 0, is refused, with the byte that is told of it.
    pub fn of_source(file: usize, refused: Refused<CompileRefusal>) -> Refused<BuildRefusal>
        ensures { result ≡ of_source file refused.refusal refused.place }
    {
        let Refused { refusal, place } = refused;
        match refusal {
            CompileRefusal::NoMemory => Refused::without_place(BuildRefusal::NoMemory),
            refusal => Refused {
                refusal: BuildRefusal::Compile {
                    file: u32::try_from(file).unwrap_or(u32::MAX),
                    refusal,
                },
                place,
            },
        }
    }

    /// The code of the texts is not linked.
    pub fn of_link(refusal: LinkRefusal) -> Refused<BuildRefusal>
        ensures { result ≡ of_link refusal }
    {
        match refusal {
            LinkRefusal::NoMemory => Refused::without_place(BuildRefusal::NoMemory),
            refusal => Refused::without_place(BuildRefusal::Link(refusal)),
        }
    }
}

impl From<AllocError> for BuildRefusal {
    ghost from_gives = { λ _ refusal. refusal ≡ BuildNoMemory };

    fn from(_: AllocError) -> BuildRefusal {
        BuildRefusal::NoMemory
    }
}

/// Why an image does not run. A refusal inside is never the want of memory.
#[derive(Debug, Drop, Error)]
pub enum RunRefusal {
    /// Its bytes are no image.
    #[error("{0}")]
    Image(ImageRefusal),
    /// It does not start.
    #[error("{0}")]
    Start(StartRefusal),
    /// Want of memory.
    #[error("NoMemory")]
    NoMemory,
}

impl RunRefusal {
    ghost use Rattle.mt_answers.specs.Status.{run_number, run_place};
    ghost use Rattle.mt_answers.specs.Unrun.{answer_to_run, of_image, of_start};

    /// The refusal's number, and 0 for want of memory.
    pub fn number(&self) -> u8
        ensures { result ≡ run_number self.now }
    {
        match self {
            RunRefusal::Image(refusal) => refusal.number(),
            RunRefusal::Start(refusal) => refusal.number(),
            RunRefusal::NoMemory => 0,
        }
    }

    /// The place that the refusal names, 0 where it names none.
    pub fn place(&self) -> u64
        ensures { result ≡ run_place self.now }
    {
        match self {
            RunRefusal::Image(refusal) => refusal.place(),
            RunRefusal::Start(refusal) => refusal.place(),
            RunRefusal::NoMemory => 0,
        }
    }

    /// The image was not read.
    pub fn of_image(refusal: ImageRefusal) -> RunRefusal
        ensures { result ≡ of_image refusal }
    {
        match refusal {
            ImageRefusal::NoMemory => RunRefusal::NoMemory,
            refusal => RunRefusal::Image(refusal),
        }
    }

    /// The image was not started.
    pub fn of_start(refusal: StartRefusal) -> RunRefusal
        ensures { result ≡ of_start refusal }
    {
        match refusal {
            StartRefusal::NoMemory => RunRefusal::NoMemory,
            refusal => RunRefusal::Start(refusal),
        }
    }

    /// What a command answers whose first file is the image.
    pub fn answer(self) -> Answer
        ensures { result ≡ answer_to_run self }
    {
        match self {
            RunRefusal::NoMemory => Answer::NoMemory,
            refusal => Answer::BadImage { file: 0, refusal },
        }
    }
}
