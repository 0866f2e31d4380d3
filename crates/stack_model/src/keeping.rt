//! Which bodies of a model are kept, and their numbers among those.

ghost use Rattle.std.specs.Prelude.{◌≡◌};
ghost use Rattle.stack_model.specs.Keeping.{flag_at, kept_before};

/// Whether body `i` is kept; past the end none is.
pub fn flag(keeps: &[bool], i: usize) -> bool
    ensures { result ≡ flag_at keeps.now i }
{
    match keeps.get(i) {
        Some(keep) => *keep,
        None => false,
    }
}

/// The number of body `i` among the kept ones.
pub fn among(keeps: &[bool], i: usize) -> usize
    ensures { result ≡ kept_before (flag_at keeps.now) i }
{
    let mut count = 0;
    for j in 0..i {
        if flag(keeps, j) {
            count += 1;
        }
    }
    count
}
