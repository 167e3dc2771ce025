//! The size of the parts in which a list is read.
ghost use Rattle.std.specs.Prelude.{◌<◌, ◌≤◌, ◌+◌, ◌*◌, ◌-◌, length, slice_index};

/// The maximum number of objects that are read, and so held in memory, at a time.
const MAX_PART: usize = 256;

/// The maximum average gap between the numbers of a part. A part is read as a range of numbers, so a list
/// with large gaps, as a party may see it, would otherwise require reading all objects between.
const MAX_GAP: u64 = 16;

/// Returns the end of the part that starts at the index `begin` of an increasing list of numbers. The part
/// has at most 256 numbers, on average at least one in 16 of its range; it is as long as these limits and the
/// list allow.
pub(crate) fn part_end(numbers: &[u64], begin: usize) -> usize
    requires { begin < length numbers.now }
    ensures further { begin < result }
    ensures inside { result ≤ length numbers.now }
    ensures few { result ≤ begin + 256 }
    ensures dense { slice_index numbers.now (result - 1)
        ≤ slice_index numbers.now begin + 16 * (result - begin) }
{
    let first = numbers[begin];
    let most = numbers.len().min(begin.saturating_add(MAX_PART));
    let mut end = begin + 1;
    let mut reach = first.saturating_add(MAX_GAP);
    while end < most && numbers[end] <= reach {
        end += 1;
        reach = reach.saturating_add(MAX_GAP);
    }
    end
}
