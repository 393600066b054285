//! A world under test, and one that was kept.

ghost use Rattle.vbm_world.specs.Texts.{IsSpelled};

use crate::ended::Ended;
use crate::files::{read_bad, read_link, read_volume};
use crate::reading::{first_word, read_id, read_number};
use crate::worlds::SoundWorld;
use std::alloc::Global;
use uuid::Uuid;
use vbm_lines::words_of;
use vbm_ports::Text;
use vbm_script::{ParseFault, answer_text, parse_form, print};
use vbm_world::Command;

/// The digits of a sector.
const SECTOR_DIGITS: usize = 1024;

/// A world under test, and one that was kept.
#[derive(Drop)]
pub(crate) struct Bench {
    alloc: Global,
    world: SoundWorld,
    kept: SoundWorld,
}

// Whether words are the same.
fn are_same(a: &[Text], b: &[Text]) -> bool {
    a.len() == b.len() && a.iter().zip(b).all(|(a, b)| a.bytes() == b.bytes())
}

impl Bench {
    /// Begins with worlds that have nothing.
    pub(crate) fn new(alloc: Global) -> Bench {
        Bench {
            alloc,
            world: SoundWorld::new(alloc, Uuid::nil()),
            kept: SoundWorld::new(alloc, Uuid::nil()),
        }
    }

    /// Does a line, and gives the answer if it is a command.
    pub(crate) fn run_line(&mut self, line: &str) -> Result<Option<String>, Ended> {
        let (word, rest) = first_word(line);
        match word {
            ">" => Ok(Some(self.answer(rest)?)),
            "repeat" => Ok(Some(self.repeat(rest)?)),
            _ => {
                self.change(word, rest)?;
                Ok(None)
            }
        }
    }

    // Does a line that is no command.
    fn change(&mut self, word: &str, rest: &str) -> Result<(), Ended> {
        match word {
            "world" => self.begin(rest),
            "counters" => self.count(rest),
            "keep" => {
                self.kept = self.world.copied(self.alloc)?;
                Ok(())
            }
            "back" => {
                self.world = self.kept.copied(self.alloc)?;
                Ok(())
            }
            _ => self.add_file(word, rest),
        }
    }

    // `world SEED NEXT INNER` begins a world of nothing.
    fn begin(&mut self, rest: &str) -> Result<(), Ended> {
        let (seed, counters) = first_word(rest);
        self.world = SoundWorld::new(self.alloc, Uuid::from_u128(read_id(seed)?));
        self.count(counters)
    }

    // `counters NEXT INNER` tells how many numbers are drawn.
    fn count(&mut self, rest: &str) -> Result<(), Ended> {
        let (next, inner) = first_word(rest);
        let next = read_number(next)?;
        let inner = read_number(inner)?;
        if next > 1 << 62 || inner > 1 << 62 {
            return Err(Ended::Here("no such number"));
        }
        self.world = self.world.copied(self.alloc)?.counted(next, inner);
        Ok(())
    }

    // Puts a file on the shelf.
    fn add_file(&mut self, word: &str, rest: &str) -> Result<(), Ended> {
        let (name, rest) = first_word(rest);
        let content = match word {
            "volume" => read_volume(self.alloc, rest)?,
            "link" => read_link(self.alloc, rest)?,
            "bad" => read_bad(rest)?,
            _ => return Err(Ended::Here("an unknown word")),
        };
        self.world = self.world.with_file(self.alloc, name, content)?;
        Ok(())
    }

    // `repeat COUNT LINE` does the line with 0, 1 and so on for `%`, and gives the last answer.
    fn repeat(&mut self, rest: &str) -> Result<String, Ended> {
        let (count, line) = first_word(rest);
        let (head, tail) = line.split_once('%').unwrap_or((line, ""));
        let mut last = String::new(self.alloc);
        for i in 0..read_number(count)? {
            let line = format!(in self.alloc; "{head}{i}{tail}")?;
            last = self.answer(line.as_str())?;
        }
        Ok(last)
    }

    // Does a command, and gives the text of its answer.
    fn answer(&mut self, line: &str) -> Result<String, Ended> {
        let words = words_of(self.alloc, &Text::new(self.alloc, line.as_bytes())?)?;
        match parse_form(self.alloc, words.as_slice()) {
            Ok(command) => {
                self.check_form(words.as_slice(), &command)?;
                self.step(&command)
            }
            Err(ParseFault::BadLine) => Ok(String::from_str(self.alloc, "error 01 BadLine")?),
            Err(ParseFault::NoMemory) => Err(Ended::Memory),
        }
    }

    // Holds the words against those that are printed.
    fn check_form(&self, words: &[Text], command: &Command) -> Result<(), Ended>
        requires { IsSpelled command.now }
    {
        let printed = print(self.alloc, command)?;
        if are_same(printed.as_slice(), words) {
            Ok(())
        } else {
            Err(Ended::Here("the form is printed otherwise"))
        }
    }

    // Does a command that was read.
    fn step(&mut self, command: &Command) -> Result<String, Ended>
        requires { IsSpelled command.now }
    {
        let (world, answer) = self.world.step(self.alloc, command)?;
        self.world = world;
        let text = answer_text(self.alloc, &answer)?;
        self.shortened(text.bytes())
    }

    // The text of an answer, where each sector of one byte is told as `aa*512`.
    fn shortened(&self, text: &[u8]) -> Result<String, Ended> {
        let Ok(text) = std::str::from_utf8(text) else {
            return Err(Ended::Here("no text"));
        };
        let Some(digits) = text.strip_prefix("ok ") else {
            return Ok(String::from_str(self.alloc, text)?);
        };
        if digits.len() < SECTOR_DIGITS || digits.len() % SECTOR_DIGITS != 0 {
            return Ok(String::from_str(self.alloc, text)?);
        }
        let mut short = String::from_str(self.alloc, "ok")?;
        for sector in digits.as_bytes().chunks_exact(SECTOR_DIGITS) {
            short.push(' ')?;
            self.push_sector(&mut short, sector)?;
        }
        Ok(short)
    }

    fn push_sector(&self, short: &mut String, sector: &[u8]) -> Result<(), Ended> {
        let [high, low, ..] = sector else {
            return Ok(());
        };
        let is_even = sector
            .chunks_exact(2)
            .all(|pair| matches!(pair, [a, b] if a == high && b == low));
        let told = if is_even { &sector[..2] } else { sector };
        match std::str::from_utf8(told) {
            Ok(digits) => short.push_str(digits)?,
            Err(_) => return Err(Ended::Here("no digits")),
        }
        if is_even {
            short.push_str("*512")?;
        }
        Ok(())
    }
}
