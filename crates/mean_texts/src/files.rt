//! The typed files of some texts, as their link and their meaning take them.

ghost use Rattle.std.specs.Prelude.{◌≡◌, ◌++◌, ◌∷◌, [], ℕ, List, OnOk};
ghost use Rattle.mean_start.specs.Files.{frames_in};
ghost use Rattle.mean_texts.specs.Texts.{AreFilesOf};
ghost use Rattle.mt_compile.specs.Planned.{HasFile};

use c_ast::Program;
use c_type_base::Typed;
use mean_start::FrameSizes;
use mt_compile::TypedFile;
use sqlite_items::Items;
use std::alloc::{AllocError, Global};

/// Some typed files, in order.
#[derive(Drop)]
pub struct Files {
    /// What their texts spell.
    pub trees: Items<Program>,
    /// The same with their types.
    pub units: Items<Typed>,
    /// The bytes of their functions' frames.
    pub frames: FrameSizes,
}

impl Files {
    /// No file.
    pub fn new(alloc: Global) -> Files
        ensures { AreFilesOf [] result }
    {
        Files {
            trees: Items::new(alloc),
            units: Items::new(alloc),
            frames: FrameSizes {
                bytes: Vec::new(alloc),
            },
        }
    }

    /// One file more.
    pub fn push(&mut self, file: TypedFile) -> Result<(), AllocError>
        ensures { OnOk result ((texts : List (List ℕ)) (text : List ℕ) → AreFilesOf texts self.old
            → HasFile text file.program file.typed file.frames.items → AreFilesOf (texts ++ text ∷ []) self.new) }
    {
        let TypedFile {
            program,
            typed,
            frames,
        } = file;
        self.trees.push(program)?;
        self.units.push(typed)?;
        self.frames.bytes.push(frames)?;
        Ok(())
    }
}
