// Lists by index, where an index past the end is no entry.
ghost use Rattle.std.specs.Prelude.{◌≡◌, get_or, set};
ghost use Rattle.rules.specs.State.{put};

// Entry i, and `none` past the end.
pub fn entry<T: Copy>(xs: &[T], i: usize, none: T) -> T
    ensures { result ≡ get_or xs.now i none }
{
    xs.get(i).copied().unwrap_or(none)
}

// The list with w for entry i, where there is such an entry.
pub fn set_entry<T: Copy>(xs: &mut [T], i: usize, w: T)
    ensures { xs.new ≡ set xs.old i w }
{
    if i < xs.len() {
        xs[i] = w;
    }
}

// The same of a column of N, in the words of the rules.
pub fn put_entry<T: Copy, const N: usize>(xs: &mut [T; N], i: usize, w: T)
    ensures { (d : T) → xs.new ≡ put N xs.old d i w }
{
    set_entry(xs, i, w);
}
