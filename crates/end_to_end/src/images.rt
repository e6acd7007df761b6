// Images that were cut or changed after they were built.
use crate::calls::{call, ended};
use mt_outside::{Files, MemFile, MemFiles, MemSink, ReadAnswer};
use mt_pipeline::{Ended, Why};
use std::alloc::{AllocError, Global};
use test_rows::{hex, unquoted};

/// The image that the command `build` makes of a text, empty where it makes none.
pub fn image_of(alloc: Global, text: Vec<u8>) -> Result<Vec<u8>, AllocError> {
    let mut held = Vec::new(alloc);
    held.push(MemFile {
        name: String::from_str(alloc, "a.c")?,
        bytes: text,
    })?;
    let mut files = MemFiles::new(held, Vec::new(alloc));
    call(alloc, &mut files, &["build", "a.c", "--out", "x"], false)?;
    match files.read(alloc, "x") {
        ReadAnswer::Got(bytes) => Ok(bytes),
        _ => Ok(Vec::new(alloc)),
    }
}

/// Runs of images. Those that follow one another and end the same are told together.
#[derive(Drop)]
struct Runs {
    alloc: Global,
    files: MemFiles,
    first: usize,
    last: usize,
    ended: String,
    told: String,
}

impl Runs {
    fn new(alloc: Global) -> Runs {
        Runs {
            alloc,
            files: MemFiles::new(Vec::new(alloc), Vec::new(alloc)),
            first: 0,
            last: 0,
            ended: String::new(alloc),
            told: String::new(alloc),
        }
    }

    /// Runs these bytes, which this number tells.
    fn add(&mut self, number: usize, bytes: &[u8]) -> Result<(), AllocError> {
        let ended = run(self.alloc, &mut self.files, bytes)?;
        if ended.as_str() != self.ended.as_str() {
            self.tell()?;
            self.first = number;
            self.ended = ended;
        }
        self.last = number;
        Ok(())
    }

    /// Tells the runs that end as the last one.
    fn tell(&mut self) -> Result<(), AllocError> {
        if self.ended.as_str().is_empty() {
            return Ok(());
        }
        let comma = if self.told.as_str().is_empty() {
            ""
        } else {
            ", "
        };
        let last = format!(in self.alloc; "{comma}{}-{}: {}", self.first, self.last, self.ended)?;
        self.told.push_str(last.as_str())
    }

    /// How all of them end.
    fn told(mut self) -> Result<String, AllocError> {
        self.tell()?;
        Ok(self.told)
    }
}

/// How the run of these bytes ends: `cut` where they are `Truncated`, which tells how many there are, the number and the
/// place of another refusal, or the status and the reason.
fn run(alloc: Global, files: &mut MemFiles, bytes: &[u8]) -> Result<String, AllocError> {
    files.write("x", bytes);
    let mut out = MemSink::new(alloc, 100, Vec::new(alloc))?;
    let mut err = MemSink::new(alloc, 100, Vec::new(alloc))?;
    let Ended { status, why } = ended(alloc, files, &["run", "x"], &mut out, &mut err)?;
    match why {
        Why::BadImage { number, place, .. } if number == 32 && place == bytes.len() as u64 => {
            String::from_str(alloc, "cut")
        }
        Why::BadImage { number, place, .. } => format!(in alloc; "{number} {place}"),
        why => format!(in alloc; "{status} {why:?}"),
    }
}

/// The first place of a part, and the place behind it, of `N+M`.
fn part(text: &str) -> Option<(usize, usize)> {
    let (first, count) = text.split_once('+')?;
    let first = first.parse::<usize>().ok()?;
    let count = count.parse::<usize>().ok()?;
    Some((first, first.checked_add(count)?))
}

/// The runs of a text's image with so many of its first bytes, or with bytes of 0 behind them.
pub fn cuts(alloc: Global, row: &str) -> Result<String, AllocError> {
    let (lengths, quoted) = row.split_once(' ').unwrap_or((row, ""));
    let Some((first, end)) = part(lengths) else {
        return String::from_str(alloc, "no part");
    };
    let mut bytes = image_of(alloc, unquoted(alloc, quoted)?)?;
    let mut runs = Runs::new(alloc);
    bytes.resize(end.max(bytes.len()), 0)?;
    for length in first..end {
        runs.add(length, &bytes[..length])?;
    }
    runs.told()
}

/// Changes these bits of the byte at a place.
fn flip(image: &mut [u8], place: usize, bits: u8) {
    if let Some(byte) = image.get_mut(place) {
        *byte ^= bits;
    }
}

/// The runs of a text's image with some bits of one byte changed, each told by the byte's place.
pub fn flips(alloc: Global, row: &str) -> Result<String, AllocError> {
    let (bits, rest) = row.split_once(' ').unwrap_or((row, ""));
    let (places, quoted) = rest.split_once(' ').unwrap_or((rest, ""));
    let bits = hex(bits).and_then(|bits| u8::try_from(bits).ok());
    let (Some(bits), Some((first, end))) = (bits, part(places)) else {
        return String::from_str(alloc, "no part");
    };
    let mut image = image_of(alloc, unquoted(alloc, quoted)?)?;
    let mut runs = Runs::new(alloc);
    for place in first..end.min(image.len()) {
        flip(&mut image, place, bits);
        runs.add(place, &image)?;
        flip(&mut image, place, bits);
    }
    runs.told()
}
