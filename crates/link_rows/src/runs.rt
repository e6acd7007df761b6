// Lists of numbers in rows: items with a comma between two of them, each in hexadecimal, and `N*ITEM` for one that stands so often.
use std::alloc::{AllocError, Global};
use std::fmt::Write;
use test_rows::hex;

/// The items of a list; one that is no number is 0.
pub(crate) fn items_of(alloc: Global, text: &str) -> Result<Vec<u64>, AllocError> {
    let mut items = Vec::new(alloc);
    for word in text.split(',') {
        let (times, digits) = word.split_once('*').unwrap_or(("1", word));
        let item = hex(digits).unwrap_or(0);
        let times: u32 = times.parse().unwrap_or(0);
        for _ in 0..times {
            items.push(item)?;
        }
    }
    Ok(items)
}

/// The list of some words, or a dash where there is none.
pub(crate) fn words_listed(alloc: Global, words: &[u32]) -> Result<String, AllocError> {
    let mut list = List::new(alloc);
    for word in words {
        list.add(alloc, *word)?;
    }
    list.end(alloc)
}

/// The list of some bytes, likewise.
pub(crate) fn bytes_listed(alloc: Global, bytes: &[u8]) -> Result<String, AllocError> {
    let mut list = List::new(alloc);
    for byte in bytes {
        list.add(alloc, u32::from(*byte))?;
    }
    list.end(alloc)
}

// A list that is being written: its text up to the last item, and how often that stands.
#[derive(Drop)]
struct List {
    text: String,
    item: u32,
    times: u64,
}

impl List {
    fn new(alloc: Global) -> List {
        List {
            text: String::new(alloc),
            item: 0,
            times: 0,
        }
    }

    fn add(&mut self, alloc: Global, item: u32) -> Result<(), AllocError> {
        if self.item != item {
            self.write(alloc)?;
            self.item = item;
            self.times = 0;
        }
        self.times = self.times.saturating_add(1);
        Ok(())
    }

    // Writes the last item behind the text.
    fn write(&mut self, alloc: Global) -> Result<(), AllocError> {
        if self.times == 0 {
            return Ok(());
        }
        if !self.text.is_empty() {
            self.text.push(',')?;
        }
        let item = if self.times == 1 {
            format!(in alloc; "{:x}", self.item)?
        } else {
            format!(in alloc; "{}*{:x}", self.times, self.item)?
        };
        self.text.push_str(item.as_str())
    }

    fn end(mut self, alloc: Global) -> Result<String, AllocError> {
        self.write(alloc)?;
        if self.text.is_empty() {
            self.text.push('-')?;
        }
        let List { text, .. } = self;
        Ok(text)
    }
}
