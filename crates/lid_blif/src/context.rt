ghost use Rattle.std.specs.Prelude.{◌≡◌, ◌+◌, ◌<◌, ◌^◌, ◌||◌, true, false, List, [], ◌∷◌};

use crate::keyword::Keyword;
use crate::line::TextLine;
use crate::words::{is_one_row, is_zero_row};

/// What the lines so far mean for the next line.
#[derive(Clone, Copy)]
pub struct Context {
    /// The next line stands in a model.
    pub inside: bool,
    /// A row would belong to a cover.
    pub covered: bool,
    /// The inputs of that cover, and 0 without one.
    pub inputs: usize,
    /// That cover has a row with the output 0.
    pub zeros: bool,
    /// That cover has a row with the output 1.
    pub ones: bool,
    /// The cover rows so far.
    pub rows: usize,
    /// The models so far.
    pub models: usize,
}

impl Context {
    ghost use Rattle.lid_base.specs.declared.line.Line.{Line};
    ghost use Rattle.lid_blif.specs.Faults.{context_of};

    /// The context of the first line.
    pub fn start() -> Context
        ensures { result ≡ context_of [] }
    {
        Context {
            inside: false,
            covered: false,
            inputs: 0,
            zeros: false,
            ones: false,
            rows: 0,
            models: 0,
        }
    }

    /// The context of the line after this one.
    pub fn after(self, line: &TextLine<'_, '_>) -> Context
        requires rows { self.rows + 1 < 2 ^ 64 }
        requires models { self.models + 1 < 2 ^ 64 }
        ensures { (before : List Line) → self ≡ context_of before → result ≡ context_of (line.now ∷ before) }
    {
        match line.keyword() {
            Keyword::Model => self.with_model(),
            Keyword::End => self.without_cover(false),
            Keyword::Names => self.with_cover(line.words().len().saturating_sub(2)),
            Keyword::Row => self.with_row(is_zero_row(line), is_one_row(line)),
            _ => self.without_cover(self.inside),
        }
    }

    fn with_model(self) -> Context
        requires { self.models + 1 < 2 ^ 64 }
        ensures { result ≡ record { inside = true; covered = false; inputs = 0; zeros = false; ones = false; rows = self.rows; models = self.models + 1 } }
    {
        Context {
            models: self.models + 1,
            ..self.without_cover(true)
        }
    }

    fn without_cover(self, inside: bool) -> Context
        ensures { result ≡ record { inside = inside; covered = false; inputs = 0; zeros = false; ones = false; rows = self.rows; models = self.models } }
    {
        Context {
            inside,
            covered: false,
            inputs: 0,
            zeros: false,
            ones: false,
            rows: self.rows,
            models: self.models,
        }
    }

    fn with_cover(self, inputs: usize) -> Context
        ensures { result ≡ record {
          inside = self.inside;
          covered = true;
          inputs = inputs;
          zeros = false;
          ones = false;
          rows = self.rows;
          models = self.models;
        } }
    {
        Context {
            inside: self.inside,
            covered: true,
            inputs,
            zeros: false,
            ones: false,
            rows: self.rows,
            models: self.models,
        }
    }

    fn with_row(self, zero: bool, one: bool) -> Context
        requires { self.rows + 1 < 2 ^ 64 }
        ensures { result ≡ record self { zeros = zero || self.zeros; ones = one || self.ones; rows = self.rows + 1 } }
    {
        Context {
            zeros: zero || self.zeros,
            ones: one || self.ones,
            rows: self.rows + 1,
            ..self
        }
    }
}
