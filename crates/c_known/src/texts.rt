ghost use Rattle.std.specs.Prelude.{Ok, ◌<◌, suc, length};
ghost use Rattle.typing_rules.specs.Known as known;
ghost use Rattle.typing_rules.specs.Checking.{asks, makes};
ghost use Rattle.typing_rules.specs.OrderedParts as ordered;
ghost use Rattle.c_values.specs.Answers.{MeansTerm};
ghost use Rattle.c_known.specs.Gives.{Gives, IsDone, IsSame};
ghost use Rattle.c_known.specs.Texts.{new_text, texts_taken};

use crate::known::Known;
use crate::local_rows::count;
use crate::refusals::needs;
use c_typed::TextObject;
use c_values::{Term, text_object};
use sqlite_items::Items;
use std::mem::replace;
use typing_rules::{Size, TypeRefusal};

const MOST_CELLS: usize = 65_535;

impl Known {
    /// A text is an object of its own (C11 6.4.5p6), with the line of its first token.
    pub fn text_term(&mut self, line: u32, bytes: &Items<u8>) -> Result<Term, TypeRefusal>
        ensures { Gives MeansTerm self.old self.new result (ordered.text_term line bytes.now) }
    {
        let cells = bytes.len();
        needs(cells < MOST_CELLS, TypeRefusal::TooLarge(line, Size::Cells))?;
        self.count_cells(line, cells as u32 + 1)?;
        self.new_text(line, bytes)
    }

    /// A new text with its number.
    fn new_text(&mut self, line: u32, bytes: &Items<u8>) -> Result<Term, TypeRefusal>
        requires { length bytes.now < 65535 }
        ensures { Gives MeansTerm self.old self.new result (new_text line bytes.now) }
    {
        let number = self.text_count()?;
        self.add_text(line, bytes)?;
        text_object(
            self.alloc,
            &mut self.types,
            line,
            bytes.len() as u32,
            number,
        )
    }

    /// How many texts the file has so far.
    fn text_count(&self) -> Result<u32, TypeRefusal>
        ensures { Gives IsSame self.now self.now result (asks (λ k. length k.texts)) }
    {
        count(self.texts.len())
    }

    /// One more text.
    fn add_text(&mut self, line: u32, bytes: &Items<u8>) -> Result<(), TypeRefusal>
        ensures { Gives IsDone self.old self.new result (makes (known.with_text line bytes.now)) }
    {
        let Ok(bytes) = Items::from_slice(self.alloc, bytes.as_slice()) else {
            return Err(TypeRefusal::Memory);
        };
        match self.texts.push(TextObject { line, bytes }) {
            Ok(()) => Ok(()),
            Err(_) => Err(TypeRefusal::Memory),
        }
    }

    /// The texts of a file at its end.
    pub fn take_texts(&mut self) -> Items<TextObject>
        ensures { Gives IsSame self.old self.new (Ok result) texts_taken }
    {
        Items::from_vec(replace(&mut self.texts, Vec::new(self.alloc)))
    }
}
