// The names that are defined.
ghost use Rattle.std.specs.Prelude.{◌≡◌, ◌<◌, ◌^◌, None, OnOk, IfSome, length};
ghost use Rattle.std.specs.Option.{option_map};

use indexmap::IndexMap;
use std::alloc::{AllocError, Global};

/// The text of each name that is defined.
#[derive(Drop)]
pub struct Texts {
    texts: IndexMap<Vec<u8>, Vec<u8>>,
}

impl Texts {
    ghost use Rattle.icn_prep.specs.DefinedNames.{no_texts, with_text, without_text};
    ghost use Rattle.icn_prep.specs.TextViews.{texts_of};

    /// A map in which no name is defined.
    pub fn new(alloc: Global) -> Self
        ensures { texts_of result ≡ no_texts }
    {
        Texts {
            texts: IndexMap::new(alloc),
        }
    }

    /// How many names are defined.
    pub fn len(&self) -> usize
        ensures { result ≡ (texts_of self.now).count }
    {
        self.texts.len()
    }

    /// The text of a name.
    pub fn get(&self, name: &[u8]) -> Option<&[u8]>
        ensures value { option_map (λ text. text.now) result ≡ (texts_of self.now).text_of name.now }
        ensures bounded { IfSome result (λ text. length text.now < 2 ^ 64) }
    {
        match self.texts.get(name) {
            Some(text) => Some(text),
            None => None,
        }
    }

    /// Gives a text to a name that has none. The error is want of memory.
    pub fn define(&mut self, alloc: Global, name: &[u8], text: &[u8]) -> Result<(), AllocError>
        requires { (texts_of self.old).text_of name.now ≡ None }
        ensures { OnOk result (texts_of self.new ≡ with_text (texts_of self.old) name.now text.now) }
    {
        let name = Vec::from_slice(alloc, name)?;
        let text = Vec::from_slice(alloc, text)?;
        self.texts.insert(name, text)?;
        Ok(())
    }

    /// Takes the text of a name away.
    pub fn undefine(&mut self, name: &[u8])
        ensures { texts_of self.new ≡ without_text (texts_of self.old) name.now }
    {
        self.texts.swap_remove(name);
    }
}
