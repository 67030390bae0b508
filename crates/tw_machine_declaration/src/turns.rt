//! How often a block is repeated, as it is written.
ghost use Rattle.std.specs.Prelude.{◌≡◌};
ghost use Rattle.tw_machine_text.specs.Views.{tree};
ghost use Rattle.tw_machine_declaration.specs.Turns.{number_of, written_turns};

use crate::names::{Standing, standing_at};
use tw_machine_text::SourceExpr;

/// The number of a parameter, if it is given.
fn number_of(standing: Standing) -> Option<i64>
    ensures { result ≡ number_of standing }
{
    match standing {
        Standing::Number(number) => Some(number),
        _ => None,
    }
}

/// How often a block is repeated, as it is written, if that is given.
pub fn written_turns(standings: &[Standing], count: &SourceExpr) -> Option<i128>
    ensures { result ≡ written_turns standings.now (tree count.now) }
{
    match count {
        SourceExpr::Number(number) => Some(*number as i128),
        SourceExpr::Name(name) => match number_of(standing_at(standings, *name)) {
            Some(number) => Some(number as i128),
            None => None,
        },
        _ => None,
    }
}
