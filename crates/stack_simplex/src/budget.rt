//! A budget of pivots that is never spent.

ghost use Rattle.std.specs.Prelude.{◌≡◌};
ghost use Rattle.stack_run.specs.Enough.{enough_of};

/// The most columns whose bound fits 32 bits.
const MOST_COLUMNS: usize = 30;

/// `3*2^columns`, a budget that no run of a table with so many columns spends, where these are all but the right side;
/// None exactly if it exceeds 32 bits, beyond 30 columns. Takes no memory.
pub fn enough(columns: usize) -> Option<u32>
    ensures { result ≡ enough_of columns }
{
    if columns > MOST_COLUMNS {
        return None;
    }
    Some(3 << columns)
}
