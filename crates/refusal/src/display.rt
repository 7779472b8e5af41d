// What is said of a layer, a refusal and a short buffer.
ghost use Rattle.std.specs.Prelude.{◌≡◌, Some};
ghost use Rattle.refusal.specs.Refusals.{text_of};
ghost use Rattle.refusal.specs.Words.{layer_name, short_buffer_words};

use crate::{Layer, Refusal, ShortBuffer};
use std::error::Error;
use std::fmt;

impl Layer {
    pub fn name(self) -> &'static str
        ensures { result.now ≡ layer_name self }
    {
        match self {
            Layer::Call => "Call",
            Layer::Line => "Line",
            Layer::Frame => "Frame",
            Layer::Body => "Body",
        }
    }
}

// One for each type: no impl of `Display` can be for whatever has a name or words.
impl fmt::Display for Layer {
    ghost output = { λ layer. Some (layer_name layer) };

    fn fmt<W: fmt::Write>(&self, f: &mut fmt::Formatter<W>) -> fmt::Result {
        f.write_str(self.name())
    }
}

impl fmt::Display for Refusal {
    ghost output = { λ refusal. Some (text_of refusal) };

    fn fmt<W: fmt::Write>(&self, f: &mut fmt::Formatter<W>) -> fmt::Result {
        f.write_str(str::from_utf8(&self.text()).unwrap())
    }
}

impl ShortBuffer {
    // What is wrong, in words.
    pub fn words(self) -> &'static str
        ensures { result.now ≡ short_buffer_words }
    {
        "a buffer is too short"
    }
}

impl fmt::Display for ShortBuffer {
    ghost output = { λ _. Some short_buffer_words };

    fn fmt<W: fmt::Write>(&self, f: &mut fmt::Formatter<W>) -> fmt::Result {
        f.write_str(self.words())
    }
}

impl Error for ShortBuffer {}
