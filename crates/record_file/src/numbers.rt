//! Numbers that differ, and numbers that follow a limit.
ghost use Rattle.std.specs.Prelude.{◌≡◌, ◌↔◌, ℕ, ◌+◌, ◌<◌, ◌≤◌, ◌^◌, All, IsTrue, IsPermutation, length, nat_eq};
ghost use Rattle.std.specs.List.{IsDistinct};
ghost use Rattle.std.specs.List.Sorted.{IsStrictlyIncreasing};
ghost use Rattle.runs.specs.Right.{counting_from};

/// Whether the numbers rise and none is above `most`.
fn rise_within(numbers: &[u64], most: u64) -> bool
    ensures { IsTrue result ↔ (All (λ n. n ≤ most) numbers.now × IsStrictlyIncreasing numbers.now) }
{
    for at in 0..numbers.len() {
        if numbers[at] > most || (at > 0 && numbers[at - 1] >= numbers[at]) {
            return false;
        }
    }
    true
}

/// Whether the numbers differ and none is above `most`.
pub(crate) fn differ_within(mut numbers: Vec<u64>, most: u64) -> bool
    ensures { IsTrue result ↔ (All (λ n. n ≤ most) numbers.items × IsDistinct nat_eq numbers.items) }
{
    numbers.sort_unstable();
    rise_within(&numbers, most)
}

/// Whether the numbers are those from `first` on, in this order.
fn count_from(numbers: &[u64], first: u64) -> bool
    ensures { IsTrue result ↔ (numbers.now ≡ counting_from first (length numbers.now)) }
{
    for at in 0..numbers.len() {
        if numbers[at] < first || numbers[at] - first != at as u64 {
            return false;
        }
    }
    true
}

/// Whether the numbers are those from `first` on, each once, in any order.
pub(crate) fn follow(mut numbers: Vec<u64>, first: u64) -> bool
    ensures { IsTrue result ↔ IsPermutation numbers.items (counting_from first (length numbers.items)) }
{
    numbers.sort_unstable();
    count_from(&numbers, first)
}
