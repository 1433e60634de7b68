// What every refusal is known by: its number and the layer that gives it.
ghost use Rattle.std.specs.Prelude.{◌≡◌, ℕ, List, Some, codes, Option as Maybe};
ghost use Rattle.refusal.specs.declared.code.Code.{Code as TheCode};
ghost use Rattle.refusal.specs.Letters.{letter, code_words};

use std::fmt;

// The layer that gives a refusal.
#[derive(Clone, Copy, PartialEq, Eq, Debug)]
pub enum Layer {
    File,
    Memory,
    Pmap,
}

#[derive(Clone, Copy, PartialEq, Eq, Debug)]
pub struct Code {
    pub number: u8,
    pub layer: Layer,
}

// A refusal, by its number and its layer.
pub trait Refusal {
    ghost known: { Self → TheCode };

    fn code(&self) -> Code
        ensures { result ≡ known self.now };
}

impl fmt::Display for Layer {
    ghost output = { λ l. Some (letter l) };

    fn fmt<W: fmt::Write>(&self, f: &mut fmt::Formatter<W>) -> fmt::Result {
        f.write_str(match self {
            Layer::File => "F",
            Layer::Memory => "M",
            Layer::Pmap => "P",
        })
    }
}

// The number and the layer's letter, as listings print them.
impl fmt::Display for Code {
    ghost output = { λ code. Some (code_words code) };

    fn fmt<W: fmt::Write>(&self, f: &mut fmt::Formatter<W>) -> fmt::Result {
        let Code { number, layer } = *self;
        write!(f, "{number} {layer}")
    }
}
