//! Tables by name: an entry for each name below a number.

ghost use Rattle.std.specs.Prelude.{◌≡◌, set};

/// Puts a value under a name, if the table has an entry for it. By index, since of a slice's `get_mut` it is not said
/// what the slice is in the end.
pub fn put<T: Copy, const N: usize>(table: &mut [T; N], name: u16, value: T)
    ensures { table.new ≡ set table.old name value }
{
    let at = usize::from(name);
    if at < N {
        table[at] = value;
    }
}
