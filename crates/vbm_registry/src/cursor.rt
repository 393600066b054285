//! Fields from the front of a file's bytes.

ghost use Rattle.std.specs.Prelude.{◌≡◌, length, nat_le, Ok, Err, MatchOption};
ghost use Rattle.std.specs.Int.{w8, w16, w64};
ghost use Rattle.vbm_registry.specs.declared.cursor.Stop.TheVariants.{NoMemory as OutOfMemory, Left as LeftOver};
ghost use Rattle.vbm_registry.specs.Parts.{number, one_field, tested};
ghost use Rattle.vbm_registry.specs.Grammar.{text_field, seed_field};
ghost use Rattle.vbm_registry.specs.Given.{Gives, GivesField};

use std::alloc::Global;
use std::marker::Model;
use vbm_ports::{NoMemory, Text};

/// A bad field.
#[derive(Clone, Copy, Debug, PartialEq, Eq)]
pub struct BadField {
    /// How many bytes are left where it begins.
    pub left: usize,
}

/// Why reading stopped.
#[derive(Clone, Copy, Debug, PartialEq, Eq)]
pub enum Stop {
    NoMemory,
    /// A field is bad, and this many bytes are left where it begins.
    Left(usize),
}

impl From<NoMemory> for Stop {
    ghost from_gives = { λ _ stop. stop ≡ OutOfMemory };

    fn from(_error: NoMemory) -> Stop {
        Stop::NoMemory
    }
}

impl From<BadField> for Stop {
    ghost from_gives = { λ field stop. stop ≡ LeftOver field.left };

    fn from(field: BadField) -> Stop {
        Stop::Left(field.left)
    }
}

// The seed at the front of bytes, and the bytes after it.
#[tactic(auto, unfolding(crate::specs::Grammar::seed_field))]
fn split_seed(bytes: &[u8]) -> Option<(&[u8; 16], &[u8])>
    ensures { MatchOption result (seed_field.read bytes.now ≡ Err (length bytes.now)) (λ x. seed_field.read bytes.now ≡ Ok (x.0.now, x.1.now)) }
{
    match bytes.split_first_chunk::<16>() {
        Some((front, rest)) => Some((front, rest)),
        None => None,
    }
}

/// The bytes of a file that are still to be read.
#[derive(Drop)]
pub struct Fields<'a> {
    rest: &'a [u8],
}

impl<'a> Model for Fields<'a> {
    ghost use Rattle.std.specs.Prelude.{List, ℕ};

    ghost Value = { List ℕ };

    ghost view = { λ fields. fields.rest.now };
}

impl<'a> Fields<'a> {
    pub fn new(bytes: &'a [u8]) -> Fields<'a>
        ensures { result ≡ bytes.now }
    {
        Fields { rest: bytes }
    }

    /// How many bytes are left.
    pub fn left(&self) -> usize
        ensures { result ≡ length self.now }
    {
        self.rest.len()
    }

    /// A field that begins here and is bad.
    pub fn bad(&self) -> BadField
        ensures { result.left ≡ length self.now }
    {
        BadField {
            left: self.rest.len(),
        }
    }

    pub fn u8(&mut self) -> Result<u8, BadField>
        ensures { GivesField result self.new ((number w8).read self.old) }
    {
        let Some((front, rest)) = self.rest.split_first_chunk::<1>() else {
            return Err(self.bad());
        };
        self.rest = rest;
        Ok(u8::from_le_bytes(*front))
    }

    pub fn u16(&mut self) -> Result<u16, BadField>
        ensures { GivesField result self.new ((number w16).read self.old) }
    {
        let Some((front, rest)) = self.rest.split_first_chunk::<2>() else {
            return Err(self.bad());
        };
        self.rest = rest;
        Ok(u16::from_le_bytes(*front))
    }

    pub fn u64(&mut self) -> Result<u64, BadField>
        ensures { GivesField result self.new ((number w64).read self.old) }
    {
        let Some((front, rest)) = self.rest.split_first_chunk::<8>() else {
            return Err(self.bad());
        };
        self.rest = rest;
        Ok(u64::from_le_bytes(*front))
    }

    /// A number up to a limit.
    pub fn limited_u8(&mut self, most: usize) -> Result<u8, BadField>
        ensures { GivesField result self.new ((tested (number w8) (λ n. nat_le n most)).read self.old) }
    {
        let start = self.bad();
        let n = self.u8()?;
        if n as usize > most {
            return Err(start);
        }
        Ok(n)
    }

    /// A number up to a limit.
    pub fn limited_u16(&mut self, most: usize) -> Result<u16, BadField>
        ensures { GivesField result self.new ((tested (number w16) (λ n. nat_le n most)).read self.old) }
    {
        let start = self.bad();
        let n = self.u16()?;
        if n as usize > most {
            return Err(start);
        }
        Ok(n)
    }

    /// A number up to a limit.
    pub fn limited_u64(&mut self, most: u64) -> Result<u64, BadField>
        ensures { GivesField result self.new ((tested (number w64) (λ n. nat_le n most)).read self.old) }
    {
        let start = self.bad();
        let n = self.u64()?;
        if n > most {
            return Err(start);
        }
        Ok(n)
    }

    /// The seed of identifiers.
    pub fn seed(&mut self) -> Result<[u8; 16], BadField>
        ensures { GivesField result self.new (seed_field.read self.old) }
    {
        let Some((seed, rest)) = split_seed(self.rest) else {
            return Err(self.bad());
        };
        self.rest = rest;
        Ok(*seed)
    }

    /// A length and a name of so many bytes, whatever it is.
    #[tactic(auto, unfolding(crate::specs::Grammar::text_field))]
    pub fn text(&mut self, alloc: Global) -> Result<Text, Stop>
        ensures { Gives result self.new ((one_field text_field).read self.old) }
    {
        match self.rest {
            [] => Err(Stop::Left(0)),
            [len, rest @ ..] => {
                let len = *len as usize;
                if rest.len() < len {
                    return Err(Stop::Left(self.rest.len()));
                }
                let (name, rest) = rest.split_at(len);
                self.rest = rest;
                Ok(Text::new(alloc, name)?)
            }
        }
    }
}
