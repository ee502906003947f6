//! Why a text was not read, and what the faults of each stage of reading are among these.

use crate::refusing::Refusal;
use pv_ast::ShapeFault;
use pv_reading::ParseFault;
use pv_tokens::TokenFault;
use pv_types::TypeFault;

/// Why a text was not read.
#[derive(Clone, Copy, Debug, PartialEq, Eq, Drop)]
pub enum TextFault {
    /// It is refused.
    Refused(Refusal),
    /// Memory ran out.
    NoMemory,
}

impl From<TokenFault> for TextFault {
    ghost use Rattle.pv_report.specs.Faults.{OfTokens};

    ghost from_gives = { OfTokens };

    fn from(fault: TokenFault) -> TextFault {
        match fault {
            TokenFault::BadByte(at) => TextFault::Refused(Refusal::BadByte(at)),
            TokenFault::BadNumber(at) => TextFault::Refused(Refusal::BadNumber(at)),
            TokenFault::OpenComment(at) => TextFault::Refused(Refusal::OpenComment(at)),
            TokenFault::Full => TextFault::Refused(Refusal::Full),
            TokenFault::NoMemory => TextFault::NoMemory,
        }
    }
}

impl From<ParseFault> for TextFault {
    ghost use Rattle.pv_report.specs.Faults.{OfParsing};

    ghost from_gives = { OfParsing };

    fn from(fault: ParseFault) -> TextFault {
        match fault {
            ParseFault::Unexpected(place) => TextFault::Refused(Refusal::Unexpected(place)),
            ParseFault::TooDeep(place) => TextFault::Refused(Refusal::TooDeep(place)),
            ParseFault::NoMemory => TextFault::NoMemory,
        }
    }
}

impl From<TypeFault> for TextFault {
    ghost use Rattle.pv_report.specs.Faults.{OfTypes};

    ghost from_gives = { OfTypes };

    fn from(fault: TypeFault) -> TextFault {
        match fault {
            TypeFault::Broken(rule, span) => TextFault::Refused(Refusal::Broken(rule, span)),
            TypeFault::NoMemory => TextFault::NoMemory,
        }
    }
}

impl From<ShapeFault> for TextFault {
    ghost use Rattle.pv_report.specs.Faults.{OfShapes};

    ghost from_gives = { OfShapes };

    fn from(fault: ShapeFault) -> TextFault {
        match fault {
            ShapeFault::QuantifierShape(span) => TextFault::Refused(Refusal::QuantifierShape(span)),
            ShapeFault::ItemShape(span) => TextFault::Refused(Refusal::ItemShape(span)),
        }
    }
}
