ghost use Rattle.std.specs.Prelude.{◌≡◌, true, decimal};
ghost use Rattle.answers.specs.Pens.{Wrote};

use itoa::Buffer;
use srmt_outside::Sink;

/// Writes texts to a sink, until one of them is not written.
#[derive(Drop)]
pub struct Pen<'a, N> {
    pub sink: &'a mut N,
    /// Whether all texts so far were written.
    pub going: bool,
}

impl<'a, N: Sink> Pen<'a, N> {
    pub fn new(sink: &'a mut N) -> Pen<'a, N>
        ensures same_sink { result.sink.ghost_name ≡ sink.entry.ghost_name }
        ensures nothing { result.sink.now ≡ sink.old }
        ensures going { result.going ≡ true }
    {
        Pen { sink, going: true }
    }

    /// Writes a text.
    pub fn text(&mut self, text: &str)
        ensures same_sink { self.new.sink.ghost_name ≡ self.old.sink.ghost_name }
        ensures wrote { Wrote N.bytes N.faults self.old.sink.now self.old.going
            self.new.sink.now self.new.going text.now }
    {
        if self.going {
            self.going = self.sink.push(text.as_bytes()).is_ok();
        }
    }

    /// Writes a number in decimal.
    pub fn number(&mut self, number: u64)
        ensures same_sink { self.new.sink.ghost_name ≡ self.old.sink.ghost_name }
        ensures wrote { Wrote N.bytes N.faults self.old.sink.now self.old.going
            self.new.sink.now self.new.going (decimal number) }
    {
        let mut digits = Buffer::new();
        self.text(digits.format(number));
    }
}
