// Rows in key order: making place for a row, and reading one.
ghost use Rattle.std.specs.Prelude.{◌≡◌, ◌+◌, ◌-◌, ◌<◌, ◌≤◌, ◌++◌, length, take, drop, slice_index_or};
ghost use Rattle.std.specs.List.{insert};

use books::Row;

// The last row comes first, and each other row one place later.
fn move_up<P: Copy>(rows: &mut [Row<P>])
    requires some { 0 < length rows.old }
    ensures moved { rows.new ≡ drop (length rows.old - 1) rows.old ++ take (length rows.old - 1) rows.old }
{
    rows.rotate_right(1);
}

// The rows from `place` on move up by one, and the row takes their place. The slots and their count
// change in one call, since a book of them is whole before and after it and not in between.
pub(crate) fn insert<P: Copy>(rows: &mut [Row<P>], used: &mut usize, place: usize, row: Row<P>)
    requires roomy { used.old < length rows.old }
    requires within { place ≤ used.old }
    ensures inserted { take (used.old + 1) rows.new ≡ insert (take used.old rows.old) place row }
    ensures counted { used.new ≡ used.old + 1 }
{
    move_up(&mut rows[place..*used + 1]);
    rows[place] = row;
    *used += 1;
}

// The row at a place. A function of its own, which needs no proof file, so that a wrong row is refused here.
pub(crate) fn row_at<P: Copy>(rows: &[Row<P>], at: usize) -> Row<P>
    requires within { at < length rows.now }
    ensures row { result ≡ slice_index_or rows.now at result }
{
    rows[at]
}
