use std::alloc::{AllocError, Global};

/// The objects of the rows so far, each under its name as the text of its parts.
#[derive(Drop)]
pub(crate) struct Shelf {
    names: Vec<String>,
    texts: Vec<String>,
}

impl Shelf {
    pub(crate) fn new(alloc: Global) -> Shelf {
        Shelf {
            names: Vec::new(alloc),
            texts: Vec::new(alloc),
        }
    }

    /// Puts an object, its name first, in the place of one of this name.
    pub(crate) fn put(&mut self, alloc: Global, line: &str) -> Result<(), AllocError> {
        let (name, text) = line.split_once(' ').unwrap_or((line, ""));
        let text = String::from_str(alloc, text)?;
        for place in 0..self.names.len() {
            if self.names[place].as_str() == name {
                if let Some(old) = self.texts.get_mut(place) {
                    *old = text;
                }
                return Ok(());
            }
        }
        self.names.push(String::from_str(alloc, name)?)?;
        self.texts.push(text)?;
        Ok(())
    }

    /// The text of an object.
    pub(crate) fn text_of(&self, name: &str) -> &str {
        for place in 0..self.names.len() {
            if self.names[place].as_str() == name {
                if let Some(text) = self.texts.get(place) {
                    return text.as_str();
                }
            }
        }
        ""
    }
}
