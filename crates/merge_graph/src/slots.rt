ghost use Rattle.std.specs.Prelude.{◌≡◌, false, set, slice_index, slice_index_or, slice_set, true};

/// The number at a place, and 0 behind the last one.
pub(crate) fn number_at(numbers: &[usize], at: usize) -> usize
    ensures { result ≡ slice_index numbers.now at }
{
    match numbers.get(at) {
        Some(number) => *number,
        None => 0,
    }
}

/// Writes a number at a place, if there is one.
pub(crate) fn put_number(numbers: &mut Vec<usize>, at: usize, number: usize)
    ensures { numbers.new.items ≡ slice_set numbers.old.items at number }
{
    if at < numbers.len() {
        numbers[at] = number;
    }
}

/// Whether there is a mark at a place.
pub(crate) fn is_marked(marks: &[bool], at: usize) -> bool
    ensures { result ≡ slice_index_or marks.now at false }
{
    match marks.get(at) {
        Some(mark) => *mark,
        None => false,
    }
}

/// Marks a place, if there is one.
pub(crate) fn mark(marks: &mut Vec<bool>, at: usize)
    ensures { marks.new.items ≡ slice_set marks.old.items at true }
{
    if at < marks.len() {
        marks[at] = true;
    }
}
