//! Reading an order of building.

ghost use Rattle.stack_model.specs.ModelView.{model_view};
ghost use Rattle.stack_orders.specs.OrderGiven.{GivesOrder};

use crate::errors::OrderError;
use crate::lines::next_block;
use stack_certificate::cut_line;
use stack_model::Model;
use std::alloc::Global;

/// The blocks that a text names, one for each of its lines, in their order. `Line` exactly if a line isn't ended by a
/// line feed, names no free block, or names the block of an earlier line, with the number of the first such line.
/// Memory may run out at any time.
pub fn read_order(alloc: Global, m: &Model, text: &[u8]) -> Result<Vec<usize>, OrderError>
    ensures { GivesOrder (model_view m.now) result text.now }
{
    m.sound();
    let mut order = Vec::new(alloc);
    let mut rest = text;
    while !rest.is_empty() {
        let (line, after) = cut_line(rest);
        match next_block(m, order.as_slice(), line) {
            Some(n) => order.push(n)?,
            None => return Err(OrderError::Line {
                number: order.len() + 1,
            }),
        }
        rest = after;
    }
    Ok(order)
}
