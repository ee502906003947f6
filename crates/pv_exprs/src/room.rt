//! How far reading may still go down.
ghost use Rattle.std.specs.Prelude.{◌≡◌, suc, Some, None, length, MatchResult};
ghost use Rattle.pv_reading.specs.declared.fault.ReadFault.TheVariants as fault;
ghost use Rattle.pv_exprs.specs.Reading as reading;

use pv_reading::ReadFault;
use pv_tokens::Lexeme;

/// How many constructs may still be opened inside one more, which the token before these opens.
pub fn inside(room: u32, behind: &[Lexeme]) -> Result<u32, ReadFault>
    ensures smaller { MatchResult result (λ inner. room ≡ suc inner) (λ _. room ≡ 0) }
    ensures readers { MatchResult result (λ inner. reading.deeper room ≡ Some (reading.readers (reading.deeper inner))) (λ e. (e ≡ fault.TooDeep (suc (length behind.now))) × (reading.deeper room ≡ None)) }
{
    if room == 0 {
        return Err(ReadFault::TooDeep(behind.len() + 1));
    }
    Ok(room - 1)
}
