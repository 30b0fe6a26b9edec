//! The text of a picture: markup, and names and numbers between it.

ghost use Rattle.std.specs.Prelude.{◌≡◌, ◌++◌, decimal, IfOk, OnOk};
ghost use Rattle.sgt_markup.specs.Escaped.{escaped};
ghost use Rattle.sgt_draw.specs.Parts.{part_text, parts_text};
ghost use Rattle.sgt_draw.specs.Picture.{IsPicture, foot_of, head_of};

use sgt_markup::escaped_text;
use sgt_notation::push_number;
use std::alloc::{AllocError, Global};
use std::marker::Model;

/// A piece of a picture's text.
#[derive(Clone, Copy)]
pub enum Part<'a> {
    /// Written as it is.
    Markup(&'static str),
    /// Written in decimal digits.
    Number(u64),
    /// Written with entities for what markup is made of.
    Name(&'a [u8]),
}

/// A number as it is written.
fn number_text(alloc: Global, number: u64) -> Result<Vec<u8>, AllocError>
    ensures { IfOk result (λ text. text.items ≡ escaped (decimal number)) }
{
    let mut digits = Vec::new(alloc);
    push_number(&mut digits, number)?;
    escaped_text(alloc, digits.as_slice())
}

/// What a picture begins with.
fn head(is_dot: bool) -> &'static str
    ensures { result.now ≡ head_of is_dot }
{
    if is_dot { "digraph sgt {\n" } else { "<svg " }
}

/// What it ends with.
fn foot(is_dot: bool) -> &'static str
    ensures { result.now ≡ foot_of is_dot }
{
    if is_dot { "}\n" } else { "</svg>\n" }
}

/// The text of a picture, as far as it is made: its head, and what parts are written as.
#[derive(Drop)]
pub struct Canvas {
    alloc: Global,
    is_dot: bool,
    text: Vec<u8>,
}

impl Model for Canvas {
    ghost use Rattle.std.specs.Prelude.{List, ℕ};

    ghost Value = { List ℕ };

    ghost use Rattle.sgt_draw.specs.Picture.{IsBegun};

    ghost view = { λ s. s.text.items };

    ghost invariant = { λ s. IsBegun s.is_dot s.text.items };
}

impl Canvas {
    ghost use Rattle.std.specs.Prelude.{Bool, List, ℕ};
    ghost use Rattle.sgt_draw.specs.Picture.{IsBegun};

    /// The head of Graphviz text, or of SVG.
    pub fn new(alloc: Global, is_dot: bool) -> Result<Canvas, AllocError>
        ensures { IfOk result (λ canvas. canvas ≡ head_of is_dot) }
    {
        Ok(Canvas {
            alloc,
            is_dot,
            text: Vec::from_slice(alloc, head(is_dot).as_bytes())?,
        })
    }

    fn put_one(&mut self, part: &Part) -> Result<(), AllocError>
        ensures text { OnOk result (self.new ≡ self.old ++ part_text part.now) }
        ensures grows { (more : List ℕ) × (self.new ≡ self.old ++ more) }
    {
        match *part {
            Part::Markup(text) => self.text.extend_from_slice(text.as_bytes()),
            Part::Name(name) => {
                let text = escaped_text(self.alloc, name)?;
                self.text.extend_from_slice(text.as_slice())
            }
            Part::Number(number) => {
                let text = number_text(self.alloc, number)?;
                self.text.extend_from_slice(text.as_slice())
            }
        }
    }

    /// Writes these parts. What stood there stands there still, also where memory ran out.
    pub(crate) fn write(&mut self, parts: &[Part]) -> Result<(), AllocError>
        ensures text { OnOk result (self.new ≡ self.old ++ parts_text parts.now) }
        ensures grows { (more : List ℕ) × (self.new ≡ self.old ++ more) }
    {
        for part in parts {
            self.put_one(part)?;
        }
        Ok(())
    }

    /// Writes these parts: markup as it is, names and numbers escaped.
    pub fn put(&mut self, parts: &[Part]) -> Result<(), AllocError>
        ensures { OnOk result (self.new ≡ self.old ++ parts_text parts.now) }
    {
        self.write(parts)
    }

    /// The text with its foot.
    pub fn into_text(self) -> Result<Vec<u8>, AllocError>
        ensures picture { IfOk result (λ text. IsPicture text.items) }
        ensures whole { IfOk result (λ text. (is_dot : Bool) × IsBegun is_dot self × (text.items ≡ self ++ foot_of is_dot)) }
    {
        let mut text = self.text;
        text.extend_from_slice(foot(self.is_dot).as_bytes())?;
        Ok(text)
    }
}
