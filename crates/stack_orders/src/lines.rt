//! The blocks that lines name.

ghost use Rattle.std.specs.Prelude.{◌≡◌, ◌<◌, [], ◌∷◌, ◌++◌, length};
ghost use Rattle.std.specs.Str.{bytes_eq};
ghost use Rattle.stack_model.specs.Structure.{body_of};
ghost use Rattle.stack_model.specs.ModelView.{model_view};
ghost use Rattle.stack_orders.specs.OrderRead.{is_free_line, block_named, next_block as next_block_of};

use stack_model::Model;

/// Whether a line is a name with a line feed.
fn is_line_of(name: &str, line: &[u8]) -> bool
    ensures { result ≡ bytes_eq line.now (name.now ++ 10 ∷ []) }
{
    match line.strip_prefix(name.as_bytes()) {
        Some(rest) => rest == b"\n".as_slice(),
        None => false,
    }
}

/// Whether a line is that of free block `i`.
fn names(model: &Model, i: usize, line: &[u8]) -> bool
    requires { i < length (model_view model.now).bodies }
    ensures { result ≡ is_free_line line.now (body_of (model_view model.now) i) }
{
    if model.body(i).fixed {
        return false;
    }
    is_line_of(model.name(i), line)
}

/// The number of the free block whose line this is.
fn named(model: &Model, line: &[u8]) -> Option<usize>
    ensures { result ≡ block_named (model_view model.now) line.now }
{
    for i in 0..model.bodies() {
        if names(model, i, line) {
            return Some(i);
        }
    }
    None
}

/// The number of the block whose line this is, if it isn't in the order yet.
pub fn next_block(model: &Model, order: &[usize], line: &[u8]) -> Option<usize>
    ensures { result ≡ next_block_of (model_view model.now) order.now line.now }
{
    match named(model, line) {
        Some(n) => { if order.contains(&n) { None } else { Some(n) } }
        None => None,
    }
}
