ghost use Rattle.std.specs.Prelude.{◌≡◌, Some};
ghost use Rattle.code.specs.Texts.{report_text};
ghost use Rattle.code.specs.declared.report.Report.{Report};

use crate::code::{Code, Layer};
use std::fmt;

/// What an engineer needs to know of an error at a glance.
#[derive(Clone, Copy, PartialEq, Eq, Debug)]
pub struct Report {
    pub code: Code,
    pub layer: Layer,
    /// In a stream the number of the block at which a lower layer refused; in the manager 0 for the record, 1 for its
    /// KEK and the key service; else 0.
    pub position: u32,
}

impl fmt::Display for Report {
    ghost output = { λ x. Some (report_text x) };

    fn fmt<W: fmt::Write>(&self, f: &mut fmt::Formatter<W>) -> fmt::Result {
        write!(
            f,
            "code {} {}, layer {}, position {}",
            self.code.number(),
            self.code.name(),
            self.layer.name(),
            self.position
        )
    }
}

/// What every layer's error can be asked.
pub trait Reported {
    ghost told: { Self → Report };

    fn report(&self) -> Report
        ensures { result ≡ told self.now };

    fn code(&self) -> Code
        ensures { result ≡ (told self.now).code }
    {
        self.report().code
    }

    fn layer(&self) -> Layer
        ensures { result ≡ (told self.now).layer }
    {
        self.report().layer
    }

    fn position(&self) -> u32
        ensures { result ≡ (told self.now).position }
    {
        self.report().position
    }
}
