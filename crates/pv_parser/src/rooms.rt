//! How far statements and members may still be nested.
ghost use Rattle.std.specs.Prelude.{◌≡◌, suc, Some, None, length, MatchResult};
ghost use Rattle.pv_reading.specs.declared.fault.ReadFault.TheVariants as fault;
ghost use Rattle.pv_exprs.specs.Reading.{readers, deeper};
ghost use Rattle.pv_parser.specs.Reading.{blocks, deeper_blocks};

use pv_exprs::inside;
use pv_reading::ReadFault;
use pv_tokens::Lexeme;

/// How many constructs may still be opened inside one more, which the token before these opens.
pub fn inside_blocks(room: u32, behind: &[Lexeme]) -> Result<u32, ReadFault>
    ensures smaller { MatchResult result (λ inner. room ≡ suc inner) (λ _. room ≡ 0) }
    ensures readers { MatchResult result (λ inner. deeper room ≡ Some (readers (deeper inner))) (λ e. (e ≡ fault.TooDeep (suc (length behind.now))) × (deeper room ≡ None)) }
    ensures statements { MatchResult result (λ inner. deeper_blocks room ≡ Some (blocks (deeper inner) (deeper_blocks inner))) (λ e. (e ≡ fault.TooDeep (suc (length behind.now))) × (deeper_blocks room ≡ None)) }
{
    inside(room, behind)
}
