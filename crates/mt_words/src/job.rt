// What the words can ask for.
use mt_base::Tag;

/// How a program is run.
#[derive(Drop)]
pub struct RunOptions {
    /// The random choices, which are cycled; 1 to 4,096 of them.
    pub choices: Vec<Tag>,
    /// The most steps that the machine makes.
    pub steps: u64,
    /// The bytes of the stack: whole KiB, 1 to 65,536 of them.
    pub stack: u64,
}

/// How far the meaning of a program is followed.
#[derive(Clone, Copy)]
pub struct MeanOptions {
    /// The most units of work that it spends.
    pub work: u64,
    /// The bytes of the stack: whole KiB, 1 to 65,536 of them.
    pub stack: u64,
}

/// A command with its files and options.
#[derive(Drop)]
pub enum Job<'a> {
    /// Builds sources in memory and runs the image.
    Go {
        files: Vec<&'a str>,
        options: RunOptions,
    },
    /// Builds sources and writes the image.
    Build {
        files: Vec<&'a str>,
        out: &'a str,
    },
    /// Links objects and writes the image.
    Link {
        files: Vec<&'a str>,
        out: &'a str,
    },
    /// Loads an image and runs it.
    Run {
        image: &'a str,
        options: RunOptions,
    },
    /// Gives the meaning of sources.
    Mean {
        files: Vec<&'a str>,
        options: MeanOptions,
    },
    /// Prints what an ELF file says of memory tagging.
    Dump {
        file: &'a str,
    },
    /// Prints the frames of a source's functions.
    Plan {
        file: &'a str,
    },
}
