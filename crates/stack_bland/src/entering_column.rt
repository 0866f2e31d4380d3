//! The entering column.

ghost use Rattle.std.specs.Prelude.{◌≡◌, ◌<◌, ◌≤◌, IfSome};
ghost use Rattle.stack_algebra.proofs.OrderedFractions.{ordered_fractions};
ghost use Rattle.stack_table.specs.Table.{columns};
ghost use Rattle.stack_table.specs.Seen.{shape_of_table, table_of};
ghost use Rattle.stack_bland.specs.Choice.{entering};

use crate::signs::is_negative;
use stack_rational::Exact;
use stack_table::Table;

/// The least column below `among` with a negative objective cell. None exactly if no cell there is negative.
pub fn entering<S: Exact>(t: &Table<S>, among: usize) -> Option<usize>
    requires { among ≤ columns (shape_of_table t.now) }
    ensures value { result ≡ entering ordered_fractions (shape_of_table t.now) (table_of t.now) among }
    ensures below { IfSome result (λ j. j < among) }
{
    let objective = t.rows();
    for j in 0..among {
        if is_negative(t.cell(objective, j)) {
            return Some(j);
        }
    }
    None
}
